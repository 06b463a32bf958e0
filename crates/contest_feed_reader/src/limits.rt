//! How large a feed may be, in bytes.

use contest_types::limits::IMPORTED_FILE;

/// Bytes of a line, in which a whole collection may stand, without its newline.
pub const FEED_LINE: usize = IMPORTED_FILE;
/// Bytes of a whole feed, with its newlines.
pub const FEED: u64 = 1_073_741_824;

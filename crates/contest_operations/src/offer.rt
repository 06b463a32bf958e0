//! What is offered on a route.
ghost use Rattle.std.specs.Prelude.{◌≡◌};
ghost use Rattle.contest_operations.specs.Offers.{is_served, methods_of, methods_text};
ghost use Rattle.contest_operations.specs.Offers.{operation_of};

use crate::command::Command;
use crate::operation::{Operation, Reading};
use contest_requests::Method;

/// What is offered on a route; nothing where nothing is served there yet.
#[derive(Clone, Copy)]
pub struct Offer {
    /// By GET, and by HEAD.
    pub get: Option<Reading>,
    /// By POST.
    pub post: Option<Command>,
    /// By PATCH.
    pub patch: Option<Command>,
}

impl Offer {
    /// Whether anything is.
    pub fn is_served(self) -> bool
        ensures { result ≡ is_served self }
    {
        self.get.is_some() || self.post.is_some() || self.patch.is_some()
    }

    /// By which methods.
    pub fn methods(self) -> AllowedMethods
        ensures { result ≡ methods_of self }
    {
        AllowedMethods {
            get: self.get.is_some(),
            post: self.post.is_some(),
            patch: self.patch.is_some(),
        }
    }

    /// What a method asks for; none where it isn't offered.
    pub fn operation(self, method: Method) -> Option<Operation>
        ensures { result ≡ operation_of self method }
    {
        match method {
            Method::Get | Method::Head => self.get.map(Operation::Read),
            Method::Post => self.post.map(Operation::Do),
            Method::Patch => self.patch.map(Operation::Do),
            Method::Other => None,
        }
    }
}

/// The methods of a route.
#[derive(Clone, Copy, PartialEq, Eq)]
pub struct AllowedMethods {
    /// GET and HEAD.
    pub get: bool,
    /// POST.
    pub post: bool,
    /// PATCH.
    pub patch: bool,
}

impl AllowedMethods {
    /// The value of the `Allow` field (RFC 9110, section 10.2.1).
    pub fn text(self) -> &'static str
        ensures { result.now ≡ methods_text self }
    {
        match (self.get, self.post, self.patch) {
            (true, true, true) => "GET, HEAD, POST, PATCH",
            (true, true, false) => "GET, HEAD, POST",
            (true, false, true) => "GET, HEAD, PATCH",
            (true, false, false) => "GET, HEAD",
            (false, true, true) => "POST, PATCH",
            (false, true, false) => "POST",
            (false, false, true) => "PATCH",
            (false, false, false) => "",
        }
    }
}

//! The methods that the desk tells apart.
ghost use Rattle.std.specs.Prelude.{◌≡◌};
ghost use Rattle.contest_http.specs.Plans.{is_head, method_of};

use contest_desk::Method;

/// The method of that name, which has a case (RFC 9110, section 9.1).
pub(crate) fn method_of(name: &[u8]) -> Method
    ensures { result ≡ method_of name.now }
{
    if name == http::Method::GET.as_str().as_bytes() {
        Method::Get
    } else if name == http::Method::HEAD.as_str().as_bytes() {
        Method::Head
    } else if name == http::Method::POST.as_str().as_bytes() {
        Method::Post
    } else if name == http::Method::PATCH.as_str().as_bytes() {
        Method::Patch
    } else {
        Method::Other
    }
}

/// Whether only the head of the reply is asked for.
pub(crate) fn is_head(method: Method) -> bool
    ensures { result ≡ is_head method }
{
    match method {
        Method::Head => true,
        Method::Get | Method::Post | Method::Patch | Method::Other => false,
    }
}

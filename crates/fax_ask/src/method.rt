//! Methods of requests.

ghost use Rattle.std.specs.Prelude.{◌≡◌};
ghost use Rattle.fax_ask.specs.Method.{method_of};

/// The method of a request, as far as requests are told apart by it.
#[derive(Clone, Copy, Debug, PartialEq, Eq)]
pub enum Method {
    Get,
    Post,
    Another,
}

impl Method {
    /// The method that these bytes name (RFC 9110, section 9.1: names are case-sensitive).
    pub fn of(name: &[u8]) -> Method
        ensures { result ≡ method_of name.now }
    {
        if name == http::Method::GET.as_str().as_bytes() {
            Method::Get
        } else if name == http::Method::POST.as_str().as_bytes() {
            Method::Post
        } else {
            Method::Another
        }
    }
}

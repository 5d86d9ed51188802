//! A page of a site.
ghost use Rattle.std.specs.Prelude.{◌≡◌};

/// A page: its reference, and its text for the field `body`.
#[derive(Clone, Copy)]
pub struct Page<'a> {
    pub reference: &'a str,
    pub text: &'a str,
}

impl<'a> Page<'a> {
    pub fn new(reference: &'a str, text: &'a str) -> Page<'a>
        ensures reference { result.reference.now ≡ reference.now }
        ensures text { result.text.now ≡ text.now }
    {
        Page { reference, text }
    }
}

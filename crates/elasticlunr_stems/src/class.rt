//! Classes of characters.
ghost use Rattle.std.specs.Prelude.{◌≡◌};
ghost use Rattle.elasticlunr_stems.specs.Tables.{is_in};
ghost use Rattle.elasticlunr_stems.specs.Views.{class_of};

/// The characters that are listed, or all but those.
#[derive(Drop)]
pub struct Class {
    pub all_but: bool,
    pub listed: Vec<char>,
}

impl Class {
    /// The character is in the class. A class has few characters: they are compared one by one.
    pub fn contains(&self, c: char) -> bool
        ensures { result ≡ is_in (class_of self.now) c }
    {
        let stands = self.listed.contains(&c);
        if self.all_but { !stands } else { stands }
    }
}

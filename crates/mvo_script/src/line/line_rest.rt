use std::marker::Model;

/// The words of a line that are not read yet, each up to the next space. Contracts see their list.
#[derive(Drop)]
pub struct LineRest<'a> {
    text: Option<&'a str>,
}

impl<'a> Model for LineRest<'a> {
    ghost use Rattle.std.specs.Prelude.{List, ℕ};
    ghost use Rattle.mvo_script.specs.line.Split.{unread_words};

    ghost Value = { List (List ℕ) };

    ghost view = { λ u. unread_words u.text };
}

impl<'a> LineRest<'a> {
    ghost use Rattle.std.specs.Prelude.{◌≡◌, [], ◌∷◌, MatchOption};
    ghost use Rattle.mvo_script.specs.line.Split.{split_words};

    /// All words of a text.
    pub fn of(text: &'a str) -> LineRest<'a>
        ensures { result ≡ split_words text.now }
    {
        LineRest { text: Some(text) }
    }

    /// Reads the next word, if there is one.
    pub fn next(&mut self) -> Option<&'a str>
        ensures { MatchOption result ((self.old ≡ []) × (self.new ≡ []))
            (λ word. self.old ≡ word.now ∷ self.new) }
    {
        let Some(text) = self.text else {
            return None;
        };
        match text.split_once(' ') {
            None => {
                self.text = None;
                Some(text)
            }
            Some((word, rest)) => {
                self.text = Some(rest);
                Some(word)
            }
        }
    }
}

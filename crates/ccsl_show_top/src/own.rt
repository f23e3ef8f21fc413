//! The words that are this program's own.

ghost use Rattle.std.specs.Prelude.{◌≡◌};
ghost use Rattle.ccsl_show_top.specs.Telling.{are_shown};

use ccsl_base::{CommandWord, Memory};
use ccsl_show::Own;
use std::alloc::Global;

/// When colours are shown.
#[derive(Clone, Copy)]
pub enum Colour {
    Always,
    Never,
    /// where standard output is a terminal
    Terminal,
}

impl Colour {
    fn named(name: &str) -> Option<Colour> {
        match name {
            "always" => Some(Colour::Always),
            "never" => Some(Colour::Never),
            "auto" => Some(Colour::Terminal),
            _ => None,
        }
    }

    /// Whether colours are shown, where the environment refuses them or not and standard output is a terminal or not.
    pub fn is_shown(self, is_refused: bool, is_terminal: bool) -> bool
        ensures { result ≡ are_shown self is_refused is_terminal }
    {
        match self {
            Colour::Always => true,
            Colour::Never => false,
            Colour::Terminal => !is_refused && is_terminal,
        }
    }
}

/// The words for `ccsl`, and what the others ask for.
#[derive(Drop)]
pub struct Asked {
    pub words: Vec<CommandWord>,
    waves: Option<String>,
    picture: Option<String>,
    colour: Option<Colour>,
}

fn text_of(text: &Option<String>) -> Option<&str> {
    match text {
        Some(text) => Some(text.as_str()),
        None => None,
    }
}

fn copied(alloc: Global, text: &str) -> Result<String, Memory> {
    Ok(String::from_str(alloc, text)?)
}

// The value of a key in a word.
fn value_of<'a>(word: &'a str, key: &str) -> Option<&'a str> {
    match word.split_once('=') {
        Some((name, value)) if name == key && !value.is_empty() => Some(value),
        _ => None,
    }
}

impl Asked {
    /// Of no words.
    pub fn new(alloc: Global) -> Asked {
        Asked {
            words: Vec::new(alloc),
            waves: None,
            picture: None,
            colour: None,
        }
    }

    // A word of this program's own is taken, and it answers whether it was one. Of each key the first is.
    fn take(&mut self, alloc: Global, word: &str) -> Result<bool, Memory> {
        if self.waves.is_none()
            && let Some(name) = value_of(word, "waves")
        {
            self.waves = Some(copied(alloc, name)?);
            return Ok(true);
        }
        if self.picture.is_none()
            && let Some(name) = value_of(word, "picture")
        {
            self.picture = Some(copied(alloc, name)?);
            return Ok(true);
        }
        if self.colour.is_none()
            && let Some(name) = value_of(word, "color")
        {
            self.colour = Colour::named(name);
            return Ok(self.colour.is_some());
        }
        Ok(false)
    }

    /// One more word. A key of this program's own is taken once; a second one is left to `ccsl`, which refuses it.
    pub fn add(&mut self, alloc: Global, word: CommandWord) -> Result<(), Memory> {
        if !self.take(alloc, word.as_str())? {
            self.words.push(word)?;
        }
        Ok(())
    }

    /// When colours are to be shown: where standard output is a terminal, unless the words say otherwise.
    pub fn colour(&self) -> Colour {
        self.colour.unwrap_or(Colour::Terminal)
    }

    /// What is asked for beside the answer.
    pub fn own(&self, is_coloured: bool) -> Own<'_> {
        Own {
            waves: text_of(&self.waves),
            picture: text_of(&self.picture),
            is_coloured,
        }
    }
}

//! The lines of tables.

ghost use Rattle.std.specs.Prelude.{◌≡◌, ◌≤◌, ◌<◌, length, nat_lt, Ok, IfOk, OnOk, IfErr};
ghost use Rattle.std.specs.Prelude.{option_copied};
ghost use Rattle.verse_listing_lines.specs.Lines.{keyword_of, text_told, place_told};
ghost use Rattle.verse_listing_lines.specs.Lines.{function_told, class_told, main_told, told};
ghost use Rattle.verse_listing_lines.specs.Lines.{in_texts, in_places};
ghost use Rattle.verse_listing_lines.specs.Lines.{words, no_tables, table_line_of};
ghost use Rattle.verse_listing_lines.specs.Answers.{Breaks, Gives, words_left};

use crate::faults::{FIELD, FORM, LineFault};
use crate::fields::{class_of, function_of, main_of, place_of};
use crate::texts::text_of;
use crate::words::{first_word, numbers};
use std::alloc::Global;
use verse_base::places::Place;
use verse_code::codes::{Class, Func};
use verse_code::tables::Table;

/// The tables of a code.
#[derive(Drop)]
pub struct Tables {
    pub texts: Table<Table<u8>>,
    pub places: Table<Place>,
    pub functions: Table<Func>,
    pub classes: Table<Class>,
}

/// How a line begins that stands before the operations.
#[derive(Clone, Copy, Debug, PartialEq, Eq)]
pub enum Keyword {
    Text,
    Place,
    Func,
    Class,
    Main,
}

fn keyword_of(word: &[u8]) -> Option<Keyword>
    ensures { result ≡ keyword_of word.now }
{
    if word == b"text".as_slice() {
        Some(Keyword::Text)
    } else if word == b"place".as_slice() {
        Some(Keyword::Place)
    } else if word == b"func".as_slice() {
        Some(Keyword::Func)
    } else if word == b"class".as_slice() {
        Some(Keyword::Class)
    } else if word == b"main".as_slice() {
        Some(Keyword::Main)
    } else {
        None
    }
}

/// The greatest number of entries of a table.
const MOST_ENTRIES: u64 = 4_294_967_295;

/// Whether a table of so many entries has room for one more.
fn has_room(count: usize) -> bool
    ensures { result ≡ nat_lt count 4294967295 }
{
    (count as u64) < MOST_ENTRIES
}

impl Tables {
    /// Empty tables. Takes no memory.
    pub fn new(alloc: Global) -> Tables
        ensures { result ≡ no_tables }
    {
        Tables {
            texts: Table::new(alloc),
            places: Table::new(alloc),
            functions: Table::new(alloc),
            classes: Table::new(alloc),
        }
    }

    fn in_texts(&self) -> bool
        ensures { result ≡ in_texts self.now }
    {
        self.places.len() == 0 && self.functions.len() == 0 && self.classes.len() == 0
    }

    fn in_places(&self) -> bool
        ensures { result ≡ in_places self.now }
    {
        self.functions.len() == 0 && self.classes.len() == 0
    }

    #[tactic(auto, unfolding(crate::specs::Lines::text_told))]
    fn text_told(&self, alloc: Global, line: Option<&[u8]>) -> Result<Table<u8>, LineFault>
        ensures { Gives (λ x. x) result
            (text_told self.now (words_left (option_copied line.entry))) }
    {
        if !self.in_texts() {
            return Err(LineFault::Broken(FORM));
        }
        let text = text_of(alloc, line)?;
        if has_room(self.texts.len()) {
            Ok(text)
        } else {
            Err(LineFault::Broken(FIELD))
        }
    }

    #[tactic(auto, unfolding(crate::specs::Lines::place_told))]
    fn place_told(&self, alloc: Global, files: u32, line: Option<&[u8]>) -> Result<Place, LineFault>
        ensures { Gives (λ x. x) result
            (place_told files self.now (words_left (option_copied line.entry))) }
    {
        if !self.in_places() {
            return Err(LineFault::Broken(FORM));
        }
        let numbers = numbers(alloc, line)?;
        let place = place_of(files, numbers.as_slice())?;
        if has_room(self.places.len()) {
            Ok(place)
        } else {
            Err(LineFault::Broken(FIELD))
        }
    }

    #[tactic(auto, unfolding(crate::specs::Lines::function_told))]
    fn function_told(&self, alloc: Global, ops: u32, line: Option<&[u8]>) -> Result<Func, LineFault>
        ensures reads { Gives (λ x. x) result
            (function_told ops self.now (words_left (option_copied line.entry))) }
        ensures room { OnOk result (length self.now.functions < 4294967295) }
    {
        if self.classes.len() != 0 {
            return Err(LineFault::Broken(FORM));
        }
        let numbers = numbers(alloc, line)?;
        let function = function_of(ops, numbers.as_slice())?;
        if has_room(self.functions.len()) {
            Ok(function)
        } else {
            Err(LineFault::Broken(FIELD))
        }
    }

    #[tactic(auto, unfolding(crate::specs::Lines::class_told))]
    fn class_told(&self, alloc: Global, line: Option<&[u8]>) -> Result<Class, LineFault>
        requires { length self.now.functions ≤ 4294967295 }
        ensures { Gives (λ x. x) result
            (class_told self.now (words_left (option_copied line.entry))) }
    {
        let numbers = numbers(alloc, line)?;
        let class = class_of(alloc, self.functions.len(), numbers.as_slice())?;
        if has_room(self.classes.len()) {
            Ok(class)
        } else {
            Err(LineFault::Broken(FIELD))
        }
    }

    #[tactic(auto, unfolding(crate::specs::Lines::main_told))]
    fn main_told(&self, alloc: Global, line: Option<&[u8]>) -> Result<u32, LineFault>
        ensures { Gives (λ x. x) result
            (main_told self.now (words_left (option_copied line.entry))) }
    {
        let numbers = numbers(alloc, line)?;
        main_of(self.functions.as_slice(), numbers.as_slice())
    }

    #[tactic(auto, unfolding(crate::specs::Lines::told))]
    fn told(
        &mut self,
        alloc: Global,
        files: u32,
        ops: u32,
        keyword: Option<Keyword>,
        line: Option<&[u8]>,
    ) -> Result<Option<u32>, LineFault>
        requires { length self.old.functions ≤ 4294967295 }
        ensures ok { IfOk result (λ x. told files ops self.old keyword
            (words_left (option_copied line.entry)) ≡ Ok (self.new, x)) }
        ensures err { IfErr result (λ e. Breaks e (told files ops self.old keyword
            (words_left (option_copied line.entry)))) }
        ensures functions { OnOk result (length self.new.functions ≤ 4294967295) }
    {
        match keyword {
            Some(Keyword::Text) => {
                let text = self.text_told(alloc, line)?;
                self.texts.push(text)?;
                Ok(None)
            }
            Some(Keyword::Place) => {
                let place = self.place_told(alloc, files, line)?;
                self.places.push(place)?;
                Ok(None)
            }
            Some(Keyword::Func) => {
                let function = self.function_told(alloc, ops, line)?;
                self.functions.push(function)?;
                Ok(None)
            }
            Some(Keyword::Class) => {
                let class = self.class_told(alloc, line)?;
                self.classes.push(class)?;
                Ok(None)
            }
            Some(Keyword::Main) => {
                let main = self.main_told(alloc, line)?;
                Ok(Some(main))
            }
            None => Err(LineFault::Broken(FORM)),
        }
    }

    /// Takes a line before the operations. Answers the number of Main where it tells that.
    pub fn line(
        &mut self,
        alloc: Global,
        files: u32,
        ops: u32,
        line: &[u8],
    ) -> Result<Option<u32>, LineFault>
        requires { length self.old.functions ≤ 4294967295 }
        ensures ok { IfOk result (λ x. table_line_of files ops self.old (words line.now) ≡
            Ok (self.new, x)) }
        ensures err { IfErr result (λ e. Breaks e
            (table_line_of files ops self.old (words line.now))) }
        ensures functions { OnOk result (length self.new.functions ≤ 4294967295) }
    {
        let (word, rest) = first_word(line);
        self.told(alloc, files, ops, keyword_of(word), rest)
    }
}

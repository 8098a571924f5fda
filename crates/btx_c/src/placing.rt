//! Where the lines of a log were met, in the files that a caller handed in.

use crate::handed::{BtxFile, Known};
use crate::numbers::FileNumbers;
use crate::place::BtxPlace;
use crate::tokens::{TokenNumber, executed_token};
use btx_bib::SourcePosition;
use btx_bst::{Item, Style, StylePlaces, read_placed_style};
use btx_run::{About, Executed};
use btx_text::Fault;
use std::alloc::{AllocError, Global};

// The file of a style: its number, and where the style's tokens and items stand in it.
#[derive(Drop)]
struct StyleFile {
    number: usize,
    places: StylePlaces,
}

impl StyleFile {
    // Answers where an item stands.
    fn place_of_item(&self, item: usize) -> BtxPlace {
        match self.places.item(item) {
            Some(part) => BtxPlace::of(self.number, &part),
            None => BtxPlace::none(),
        }
    }

    // Answers where what is executed stands: this token, or the command where there is none.
    fn place_of_executed(&self, executed: &Executed<'_>, token: Option<TokenNumber>) -> BtxPlace {
        let Some(number) = token else {
            return self.place_of_item(executed.item);
        };
        match self.places.token(number.function, number.token) {
            Some(part) => numbered(BtxPlace::of(self.number, &part), token),
            None => numbered(BtxPlace::none(), token),
        }
    }
}

// What is known of the file of the style.
#[derive(Drop)]
enum StyleText {
    // Nothing yet: it is read where a line is about it.
    Unread,
    // It wasn't handed in.
    Unknown,
    // It was read.
    Read(StyleFile),
}

/// What finds the places of lines. The files are numbered, and the style is read, once and only where a line is about one.
#[derive(Drop)]
pub struct PlaceFinder<'f> {
    alloc: Global,
    files: &'f [BtxFile<'f>],
    numbers: Option<FileNumbers<'f>>,
    style: StyleText,
    // The messages of the style's text before this item were logged.
    next_item: usize,
}

impl<'f> PlaceFinder<'f> {
    /// Finds places in these files.
    pub fn new(alloc: Global, files: &'f [BtxFile<'f>]) -> Self {
        PlaceFinder {
            alloc,
            files,
            numbers: None,
            style: StyleText::Unread,
            next_item: 0,
        }
    }

    /// Answers the place that the next line is about. The only fault is want of memory.
    pub fn place_of(&mut self, about: &About<'_>) -> Result<BtxPlace, Fault> {
        match about {
            About::Style(style) => self.place_of_message(style),
            About::Databases(Some(position)) => Ok(self.place_in_database(position)?),
            About::Execution(executed) => self.place_of_executed(executed),
            About::Files | About::Databases(None) | About::End => Ok(BtxPlace::none()),
        }
    }

    // Answers the number of the file `name`.
    fn number_of(&mut self, name: &[u8]) -> Result<Option<usize>, AllocError> {
        if self.numbers.is_none() {
            self.numbers = Some(FileNumbers::of(self.alloc, self.files)?);
        }
        match &self.numbers {
            Some(numbers) => Ok(numbers.number_of(name)),
            None => Ok(None),
        }
    }

    // Answers the place of a database.
    fn place_in_database(&mut self, position: &SourcePosition<'_>) -> Result<BtxPlace, AllocError> {
        match self.number_of(position.file.as_bytes())? {
            Some(file) => Ok(BtxPlace::at(file, position.line, position.at)),
            None => Ok(BtxPlace::none()),
        }
    }

    // Reads the file `name` of the style.
    fn read_file(&mut self, name: &[u8]) -> Result<StyleText, Fault> {
        let Some(number) = self.number_of(name)? else {
            return Ok(StyleText::Unknown);
        };
        let Some(file) = self.files.get(number) else {
            return Ok(StyleText::Unknown);
        };
        let Known::Bytes(text) = file.known() else {
            return Ok(StyleText::Unknown);
        };
        match read_placed_style(self.alloc, file.name, text) {
            Ok(placed) => Ok(StyleText::Read(StyleFile {
                number,
                places: placed.places,
            })),
            Err(Fault::Memory) => Err(Fault::Memory),
            Err(_) => Ok(StyleText::Unknown),
        }
    }

    // Reads the file of this style, unless it has been read.
    fn read_style(&mut self, style: &Style<'_>) -> Result<(), Fault> {
        if let StyleText::Unread = &self.style {
            self.style = self.read_file(style.file_name())?;
        }
        Ok(())
    }

    // Answers the place of the next message of a style's text.
    fn place_of_message(&mut self, style: &Style<'_>) -> Result<BtxPlace, Fault> {
        self.read_style(style)?;
        let Some(item) = next_message(style.items(), self.next_item) else {
            return Ok(BtxPlace::none());
        };
        self.next_item = item.saturating_add(1);
        match &self.style {
            StyleText::Read(file) => Ok(file.place_of_item(item)),
            StyleText::Unread | StyleText::Unknown => Ok(BtxPlace::none()),
        }
    }

    // Answers the place of what is executed: of a token, or of the command where no token is.
    fn place_of_executed(&mut self, executed: &Executed<'_>) -> Result<BtxPlace, Fault> {
        self.read_style(executed.style)?;
        let token = token_of(executed);
        match &self.style {
            StyleText::Read(file) => Ok(file.place_of_executed(executed, token)),
            StyleText::Unread | StyleText::Unknown => Ok(numbered(BtxPlace::none(), token)),
        }
    }
}

// Answers the token that is executed. None where a command's function has ended, or a command runs its function itself.
fn token_of(executed: &Executed<'_>) -> Option<TokenNumber> {
    executed_token(executed.style, &executed.standing?)
}

// Answers the number of the first message among the items from a number on.
fn next_message(items: &[Item<'_>], from: usize) -> Option<usize> {
    for number in from..items.len() {
        if let Item::Message(_) = &items[number] {
            return Some(number);
        }
    }
    None
}

// A place with the numbers of its token, if it is one's, as far as they fit.
fn numbered(place: BtxPlace, token: Option<TokenNumber>) -> BtxPlace {
    let Some(token) = token else {
        return place;
    };
    match (u32::try_from(token.function), u32::try_from(token.token)) {
        (Ok(function), Ok(number)) => place.with_token(function, number),
        _ => place,
    }
}

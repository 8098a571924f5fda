//! Styles as plain numbers, so that a test compares these and holds no style.
use btx_bst::{Item, Style, is_direct, read_style};
use btx_text::Fault;
use std::alloc::Global;

// How many messages a style has.
fn messages(style: &Style<'_>) -> usize {
    style
        .items()
        .iter()
        .filter(|item| matches!(item, Item::Message(_)))
        .count()
}

/// How many things a style has, and whether it is direct.
#[derive(Drop)]
pub struct Overview {
    /// How many items.
    pub items: usize,
    /// How many functions.
    pub functions: usize,
    /// How many messages.
    pub messages: usize,
    /// How many macros.
    pub macros: usize,
    /// How many fields.
    pub fields: usize,
    /// Whether it is direct.
    pub is_direct: bool,
}

// What a style has.
fn overview_of(style: &Style<'_>) -> Result<Overview, Fault> {
    Ok(Overview {
        items: style.items().len(),
        functions: style.functions(),
        messages: messages(style),
        macros: style.macros().len(),
        fields: style.fields(),
        is_direct: is_direct(style),
    })
}

/// Answers what the style of a text has. Nothing but the reading may fail here, since each `?` is a way out on which the whole style is dropped; the last call
/// answers what this does.
pub fn look_over(alloc: Global, text: &[u8]) -> Result<Overview, Fault> {
    let style = read_style(alloc, b"s", text)?;
    overview_of(&style)
}

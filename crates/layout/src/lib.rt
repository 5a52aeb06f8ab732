// What the layout calls leave, as definitions, and the theorem that layout and colour commute. Nearly no code: the record of a replacement.
#![tactic(auto)]

// One replacement: the content's bytes from `start` up to `end` go, and the bytes of the replacement text from `from` up to `to` come in.
#[derive(Clone, Copy)]
pub struct Replacement {
    pub start: u32,
    pub end: u32,
    pub from: u32,
    pub to: u32,
}

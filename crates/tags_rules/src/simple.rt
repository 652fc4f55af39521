// A simple tag.
use bodies_rules::Range;
use fields_rules::{Language, TagValue};

#[derive(Clone, Copy)]
pub struct SimpleTag {
    pub name: Option<Range>,
    pub language: Option<Language>,
    pub default: Option<bool>,
    pub value: Option<TagValue>,
}

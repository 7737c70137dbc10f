//! What explanations are written from: a command's parts and its place in the script, and the modules
//! with their texts.
#![tactic(auto)]

mod command;
mod ground;
mod modules;
mod numbered;

pub use command::{
    CommandParts, FORMS, Past, ScriptCommand, has_word, parts_of, parts_of_load, split_word,
};
pub use ground::Ground;
pub use modules::{
    KnownModule, ModuleTexts, arity_of, bytes_at, declaring, is_sign, known_modules,
    missing_modules, module_of, token_of, tokens_of,
};
pub use numbered::Numbered;

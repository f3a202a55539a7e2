//! The positional arguments of the program's commands, parsed by `clap`. Help is switched off, and the caller passes
//! no word that begins with `-`.
#![tactic(auto)]

mod arguments;
mod commands;
mod options;
mod parsing;

pub use arguments::{
    MakeArguments, PackArguments, ReadArguments, make_arguments, no_arguments, pack_arguments,
    read_arguments, some_arguments,
};
pub use options::has_option;

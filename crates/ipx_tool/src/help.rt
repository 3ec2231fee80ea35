//! Describes the commands to `clap`.

use crate::commands::{CommandShape, OptionShape, OptionValue, WordShape, shapes};
use crate::texts::{ABOUT, STATUSES};
use clap::builder::ValueParser;
use clap::{Arg, ArgAction, Command};
use std::alloc::{AllocError, Global};

/// The version of the program.
pub const VERSION: &str = "0.1.0";

fn word_arg<'a>(alloc: Global, word: &WordShape) -> Result<Arg<'a>, AllocError> {
    let arg = Arg::new(alloc, word.name).help(word.help);
    match word.unless {
        None => Ok(arg.required(word.wanted)),
        Some(option) => arg.required_unless_present(option)?.conflicts_with(option),
    }
}

fn option_arg<'a>(alloc: Global, option: &OptionShape) -> Arg<'a> {
    let arg = Arg::new(alloc, option.name).help(option.help);
    let arg = match option.value {
        OptionValue::Count => arg.short('c'),
        _ => arg.long(option.name),
    };
    match option.value {
        OptionValue::Nothing => arg.action(ArgAction::SetTrue),
        OptionValue::Port => arg
            .value_name("P")
            .value_parser(ValueParser::unsigned(1, 65_535)),
        OptionValue::Node => arg.value_name("NODE"),
        OptionValue::Count => arg
            .value_name("N")
            .value_parser(ValueParser::unsigned(1, 65_535)),
    }
}

/// An option that cannot be given together with any of the others.
fn exclusive_option<'a>(
    alloc: Global,
    option: &OptionShape,
    others: &[OptionShape],
) -> Result<Arg<'a>, AllocError> {
    let mut arg = option_arg(alloc, option);
    for other in others {
        arg = arg.conflicts_with(other.name)?;
    }
    Ok(arg)
}

/// A command with one more word.
fn with_word<'a>(
    alloc: Global,
    command: Command<'a>,
    word: &WordShape,
) -> Result<Command<'a>, AllocError> {
    command.arg(word_arg(alloc, word)?)
}

fn with_words<'a>(
    alloc: Global,
    command: Command<'a>,
    words: &[WordShape],
) -> Result<Command<'a>, AllocError> {
    let mut command = command;
    for word in words {
        command = with_word(alloc, command, word)?;
    }
    Ok(command)
}

/// A command with one more option, which cannot be given together with the others.
fn with_option<'a>(
    alloc: Global,
    command: Command<'a>,
    option: &OptionShape,
    others: &[OptionShape],
) -> Result<Command<'a>, AllocError> {
    command.arg(exclusive_option(alloc, option, others)?)
}

fn with_options<'a>(
    alloc: Global,
    command: Command<'a>,
    options: &[OptionShape],
) -> Result<Command<'a>, AllocError> {
    let mut command = command;
    for (place, option) in options.iter().enumerate() {
        command = with_option(alloc, command, option, &options[..place])?;
    }
    Ok(command)
}

fn command_of<'a>(alloc: Global, shape: &CommandShape) -> Result<Command<'a>, AllocError> {
    let command = Command::new(alloc, shape.name)
        .about(shape.about)
        .long_about(shape.long_about)
        .after_help(shape.statuses);
    let command = with_words(alloc, command, shape.words)?;
    with_options(alloc, command, shape.options)
}

/// The program, without its commands.
fn program<'a>(alloc: Global) -> Result<Command<'a>, AllocError> {
    let program = Command::new(alloc, "ipx").bin_name("ipx")?;
    Ok(
        program
            .version(VERSION)
            .about(ABOUT)
            .after_help(STATUSES)
            .subcommand_required(true),
    )
}

/// The program with one more command.
fn with_command<'a>(
    alloc: Global,
    program: Command<'a>,
    shape: &CommandShape,
) -> Result<Command<'a>, AllocError> {
    program.subcommand(command_of(alloc, shape)?)
}

fn with_commands<'a>(
    alloc: Global,
    program: Command<'a>,
    shapes: &[&CommandShape],
) -> Result<Command<'a>, AllocError> {
    let mut program = program;
    for shape in shapes {
        program = with_command(alloc, program, shape)?;
    }
    Ok(program)
}

/// The program's commands, with their help texts.
pub fn whole_command<'a>(alloc: Global) -> Result<Command<'a>, AllocError> {
    with_commands(alloc, program(alloc)?, &shapes())
}

//! Worked examples of the terminals of a PAD: what is typed and shown, command lines, signals and messages.
mod commands;
mod editing;
mod messages;
mod parameters;
mod terminals;

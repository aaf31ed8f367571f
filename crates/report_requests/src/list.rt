//! The options of `show` that make a list of it.

use crate::arguments::{excluding, flag, option, put};
use clap::Arg;
use std::alloc::{AllocError, Global};

// The orders of a list.
static ORDERS: [&str; 2] = ["name", "units"];

// What does not go with a list. It excludes the order of a list too: `clap` asks for no list if one is excluded.
static EXCLUDED: [&str; 4] = ["ascii", "log", "all", "html"];

// Puts a comma between thousands.
fn human_flag<'a>(alloc: Global) -> Arg<'a> {
    flag(alloc, "human", "Write numbers with separators: 1,234,567").long_help(
        "Write numbers with separators: 1,234,567 (a page always does)",
    )
}

// Asks for a list.
fn list_flag<'a>(alloc: Global) -> Result<Arg<'a>, AllocError> {
    let list = flag(alloc, "list", "Print one line for each histogram").long_help(
        "Print one line for each histogram (not with --ascii, --log, --all or\n--html)",
    );
    excluding(list, &EXCLUDED)
}

// The order of a list.
fn sort_option<'a>(alloc: Global) -> Result<Arg<'a>, AllocError> {
    let sort = option(alloc, "sort", "ORDER", "Order of a list")
        .long_help("Order of a list: by name, or by units, the most first")
        .value_parser(ORDERS.as_slice())
        .requires_arg("list")?;
    excluding(sort, &EXCLUDED)
}

/// The options of `show` that make a list of it and write numbers for people.
pub fn put_list_options<'a>(alloc: Global, args: &mut Vec<Arg<'a>>) -> Result<(), AllocError> {
    put(args, list_flag(alloc)?)?;
    put(args, sort_option(alloc)?)?;
    put(args, human_flag(alloc))
}

//! Checks a form of a chosen shape and size and translations its term, so many times, and writes how many terms there are: for
//! measuring by hand.
#![tactic(auto)]

mod rounds;
mod shapes;
mod simple;
mod world;

use crate::rounds::all_rounds;
use crate::shapes::Shape;
use std::process::ExitCode;
use std::rt::Env;
use std::{env, io};

/// The words after the program's name.
fn words(rt: &(impl Env + AllocGlobal)) -> io::Result<Vec<String>> {
    let mut words = Vec::new(rt.alloc());
    for word in env::args(rt)?.skip(1) {
        words.push(word)?;
    }
    Ok(words)
}

fn number(words: &[String], i: usize) -> u32 {
    if i < words.len() {
        words[i].as_str().parse::<u32>().unwrap_or(0)
    } else {
        0
    }
}

fn shape(words: &[String]) -> Shape {
    if words.len() == 0 {
        return Shape::Let;
    }
    let word = words[0].as_str();
    if word == "uses" {
        Shape::Uses
    } else if word == "if" {
        Shape::If
    } else if word == "call" {
        Shape::Call
    } else {
        Shape::Let
    }
}

fn main(rt: HostRuntime) -> ExitCode {
    let words = match words(&rt) {
        Ok(words) => words,
        Err(_) => return ExitCode::from(2),
    };
    let words = words.as_slice();
    let levels = number(words, 1);
    let width = number(words, 2);
    let checks = number(words, 3);
    let translations = number(words, 4);
    let shape = shape(words);
    match all_rounds(rt.alloc(), shape, levels, width, checks, translations) {
        Ok(terms) => match println!(rt; "{terms}") {
            Ok(()) => ExitCode::from(0),
            Err(_) => ExitCode::from(3),
        },
        Err(_) => ExitCode::from(1),
    }
}

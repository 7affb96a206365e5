//! Expands one form many times, and prints how many uses of macros were counted.
//!
//! Words: TIMES GROUPS PARTS HEAD PART. The form is an MV of so many groups, `(HEAD PART PART ..)` with so many parts each; with one
//! group it is the group alone.
#![tactic(auto)]

use acl_expand_rows::uses;
use std::alloc::{AllocError, Global};
use std::rt::Env;
use std::{env, io};

/// What is to be done.
#[derive(Drop)]
struct Task {
    times: u64,
    groups: u64,
    parts: u64,
    head: String,
    part: String,
}

fn number(words: &mut Vec<String>) -> Option<u64> {
    match words.pop() {
        None => None,
        Some(word) => match word.parse::<u64>() {
            Ok(n) => Some(n),
            Err(_) => None,
        },
    }
}

/// The task of five words; the last of them stands first.
fn read_task(words: Vec<String>) -> Option<Task> {
    let mut words = words;
    let times = number(&mut words)?;
    let groups = number(&mut words)?;
    let parts = number(&mut words)?;
    let head = words.pop()?;
    let part = words.pop()?;
    Some(Task {
        times,
        groups,
        parts,
        head,
        part,
    })
}

/// A head and so many parts.
fn put_group(bytes: &mut Vec<u8>, task: &Task) -> Result<(), AllocError> {
    bytes.extend_from_slice(b" (")?;
    bytes.extend_from_slice(task.head.as_bytes())?;
    for _ in 0..task.parts {
        bytes.push(b' ')?;
        bytes.extend_from_slice(task.part.as_bytes())?;
    }
    bytes.push(b')')?;
    Ok(())
}

fn form(alloc: Global, task: &Task) -> Result<Vec<u8>, AllocError> {
    let mut bytes = Vec::new(alloc);
    if task.groups == 1 {
        put_group(&mut bytes, task)?;
        return Ok(bytes);
    }
    bytes.extend_from_slice(b"(MV")?;
    for _ in 0..task.groups {
        put_group(&mut bytes, task)?;
    }
    bytes.push(b')')?;
    Ok(bytes)
}

/// The words after the program's name, the last first.
fn words(rt: &(impl Env + AllocGlobal)) -> io::Result<Vec<String>> {
    let mut words = Vec::new(rt.alloc());
    for word in env::args(rt)?.skip(1) {
        words.push(word)?;
    }
    words.reverse();
    Ok(words)
}

fn main(rt: HostRuntime) -> io::Result<()> {
    match read_task(words(&rt)?) {
        None => println!(rt; "five words: TIMES GROUPS PARTS HEAD PART")?,
        Some(task) => {
            let bytes = form(rt.alloc(), &task)?;
            match uses(rt.alloc(), bytes.as_slice(), task.times)? {
                None => println!(rt; "refused")?,
                Some(count) => println!(rt; "{count}")?,
            }
        }
    }
    Ok(())
}

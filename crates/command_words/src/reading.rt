//! Reading what the words of the command line ask for.

ghost use Rattle.std.specs.Prelude.{◌≡◌, ◌≤◌, map, option_map, string_bytes, IfOk};
ghost use Rattle.arc_num.specs.declared.TheConstants.{MAX_SPLITS};
ghost use Rattle.command_words.specs.Faults.{HasValues, HasPlains, value_of_setting};
ghost use Rattle.command_words.specs.Table.{row_of, generated_instance_shape};
ghost use Rattle.command_words.specs.declared.table.Setting.TheVariants.{Cert};
ghost use Rattle.command_words.specs.declared.table.Verb.TheVariants as verb;
ghost use Rattle.command_words.specs.Requests.{request_of, name_at, number_at, first_name, wants_mvp, wanted_workers, wanted_nodes, IsCount, IsSize, IsInRanges, request_from, Answers};

use crate::commands::{Command, DEFAULT_SPLITS};
use crate::faults::WordFault;
use crate::found::Found;
use crate::table::{Setting, Verb};
use arc_num::Memory;
use std::alloc::Global;

/// The plain word at this place, from 0; the empty name where there is none.
fn name_at(alloc: Global, found: &Found, place: usize) -> Result<String, Memory>
    ensures { IfOk result (λ name. string_bytes name ≡ name_at place found.now) }
{
    let name = match found.plain(place) {
        Some(name) => String::from_str(alloc, name)?,
        None => String::new(alloc),
    };
    Ok(name)
}

/// Whether an instance of this name, which is the first plain word, is read in the `.mvp` layout.
fn wants_mvp(found: &Found, name: &str) -> bool
    requires { name.now ≡ first_name found.now }
    ensures { result ≡ wants_mvp found.now }
{
    found.has(Setting::Mvp) || name.as_bytes().ends_with(b".mvp")
}

/// The name under which a certificate is to be written, where the words ask for one.
fn wanted_certificate(alloc: Global, found: &Found) -> Result<Option<String>, Memory>
    ensures { IfOk result (λ cert. option_map string_bytes cert ≡ value_of_setting Cert found.now) }
{
    match found.value(Setting::Cert) {
        Some(name) => {
            let cert = String::from_str(alloc, name)?;
            Ok(Some(cert))
        }
        None => Ok(None),
    }
}

/// How many threads may work at once: 1 where nothing is said.
fn wanted_workers(found: &Found) -> u32
    requires { HasValues found.now }
    ensures value { result ≡ wanted_workers found.now }
    ensures count { IsCount result }
{
    match found.number(Setting::Workers) {
        Some(workers) => workers as u32,
        None => 1,
    }
}

/// How many splits are granted.
fn wanted_nodes(found: &Found) -> u32
    requires { HasValues found.now }
    ensures value { result ≡ wanted_nodes found.now }
    ensures most { result ≤ MAX_SPLITS }
{
    match found.number(Setting::Nodes) {
        Some(nodes) => nodes as u32,
        None => DEFAULT_SPLITS,
    }
}

/// The seed of an instance that is generated.
fn wanted_seed(found: &Found) -> u64
    ensures { result ≡ number_at 0 found.now }
{
    match found.plain_number(0) {
        Some(seed) => seed,
        None => 0,
    }
}

/// How many items an instance has that is generated.
fn wanted_size(found: &Found) -> u32
    requires { HasPlains generated_instance_shape found.now }
    ensures value { result ≡ number_at 1 found.now }
    ensures size { IsSize result }
{
    match found.plain_number(1) {
        Some(size) => size as u32,
        None => 1,
    }
}

fn compile_from(alloc: Global, found: &Found) -> Result<Command, Memory>
    requires values { HasValues found.now }
    ensures request { IfOk result (λ command. request_of command ≡ request_from verb.Compile found.now) }
    ensures ranges { IfOk result (λ command. IsInRanges (request_of command)) }
{
    let name = name_at(alloc, found, 0)?;
    let mvp = wants_mvp(found, name.as_str());
    let workers = wanted_workers(found);
    Ok(Command::Compile { name, mvp, workers })
}

fn solve_from(alloc: Global, found: &Found) -> Result<Command, Memory>
    requires values { HasValues found.now }
    ensures request { IfOk result (λ command. request_of command ≡ request_from verb.Solve found.now) }
    ensures ranges { IfOk result (λ command. IsInRanges (request_of command)) }
{
    let name = name_at(alloc, found, 0)?;
    let mvp = wants_mvp(found, name.as_str());
    let nodes = wanted_nodes(found);
    let cert = wanted_certificate(alloc, found)?;
    let workers = wanted_workers(found);
    Ok(Command::Solve {
        name,
        mvp,
        nodes,
        cert,
        workers,
    })
}

fn check_from(alloc: Global, found: &Found) -> Result<Command, Memory>
    requires values { HasValues found.now }
    ensures request { IfOk result (λ command. request_of command ≡ request_from verb.Check found.now) }
    ensures ranges { IfOk result (λ command. IsInRanges (request_of command)) }
{
    let name = name_at(alloc, found, 0)?;
    let mvp = wants_mvp(found, name.as_str());
    let cert = name_at(alloc, found, 1)?;
    let workers = wanted_workers(found);
    Ok(Command::Check {
        name,
        cert,
        mvp,
        workers,
    })
}

fn export_from(alloc: Global, found: &Found) -> Result<Command, Memory>
    ensures request { IfOk result (λ command. request_of command ≡ request_from verb.Export found.now) }
    ensures ranges { IfOk result (λ command. IsInRanges (request_of command)) }
{
    let name = name_at(alloc, found, 0)?;
    let mvp = wants_mvp(found, name.as_str());
    let joint = found.has(Setting::Joint);
    Ok(Command::Export { name, mvp, joint })
}

fn extract_from(alloc: Global, found: &Found) -> Result<Command, Memory>
    ensures request { IfOk result (λ command. request_of command ≡ request_from verb.Extract found.now) }
    ensures ranges { IfOk result (λ command. IsInRanges (request_of command)) }
{
    let name = name_at(alloc, found, 0)?;
    let mvp = wants_mvp(found, name.as_str());
    let solution = name_at(alloc, found, 1)?;
    Ok(Command::Extract {
        name,
        solution,
        mvp,
    })
}

fn bound_from(alloc: Global, found: &Found) -> Result<Command, Memory>
    ensures request { IfOk result (λ command. request_of command ≡ request_from verb.Bound found.now) }
    ensures ranges { IfOk result (λ command. IsInRanges (request_of command)) }
{
    let name = name_at(alloc, found, 0)?;
    let mvp = wants_mvp(found, name.as_str());
    let cert = wanted_certificate(alloc, found)?;
    Ok(Command::Bound { name, mvp, cert })
}

fn make_from(found: &Found) -> Command
    requires values { HasValues found.now }
    requires plains { HasPlains generated_instance_shape found.now }
    ensures request { request_of result ≡ request_from verb.Make found.now }
    ensures ranges { IsInRanges (request_of result) }
{
    Command::Make {
        seed: wanted_seed(found),
        size: wanted_size(found),
        nodes: wanted_nodes(found),
        workers: wanted_workers(found),
    }
}

/// The command that is asked for by what stands behind its word.
fn command_from(alloc: Global, verb: Verb, found: &Found) -> Result<Command, Memory>
    requires values { HasValues found.now }
    requires plains { HasPlains (row_of verb).shape found.now }
    ensures request { IfOk result (λ command. request_of command ≡ request_from verb found.now) }
    ensures ranges { IfOk result (λ command. IsInRanges (request_of command)) }
{
    match verb {
        Verb::Compile => compile_from(alloc, found),
        Verb::Solve => solve_from(alloc, found),
        Verb::Check => check_from(alloc, found),
        Verb::Export => export_from(alloc, found),
        Verb::Extract => extract_from(alloc, found),
        Verb::Bound => bound_from(alloc, found),
        Verb::Make => Ok(make_from(found)),
    }
}

/// Reads the words of the command line, without the program's name.
pub fn read_words(alloc: Global, words: &[String]) -> Result<Command, WordFault>
    ensures answers { Answers (map string_bytes words.now) result }
    ensures ranges { IfOk result (λ command. IsInRanges (request_of command)) }
{
    let Some((word, others)) = words.split_first() else {
        return Err(WordFault::NoCommand);
    };
    let Some(verb) = Verb::named(word.as_str()) else {
        return Err(WordFault::NoSuchCommand { word: 1 });
    };
    let found = Found::read(alloc, verb.row().shape, others)?;
    let command = command_from(alloc, verb, &found)?;
    Ok(command)
}

//! The rows that the words of the command line are known by, also over shapes that no command has yet.
use crate::found::Found;
use crate::table::{PlainWord, Setting, Shape};
use crate::{Command, DEFAULT_SPLITS, Source, WordFault, push_word_fault, read_words};
use std::alloc::{AllocError, Global};
use std::test::Fail;

/// Words that stand apart by one blank each. The empty text has no word.
fn split_words(alloc: Global, words: &str) -> Result<Vec<String>, AllocError> {
    let mut list = Vec::new(alloc);
    if words.is_empty() {
        return Ok(list);
    }
    for word in words.split(' ') {
        list.push(String::from_str(alloc, word)?)?;
    }
    Ok(list)
}

/// These plain words, with every option.
fn every_option(first: PlainWord, second: Option<PlainWord>) -> Shape {
    Shape {
        first,
        second,
        mvp: true,
        joint: true,
        nodes: true,
        cert: true,
        workers: true,
    }
}

fn found(alloc: Global, shape: Shape, words: &str) -> Result<Found, WordFault> {
    match split_words(alloc, words) {
        Ok(words) => Found::read(alloc, shape, words.as_slice()),
        Err(_) => Err(WordFault::Memory),
    }
}

fn fault(alloc: Global, shape: Shape, words: &str) -> Option<WordFault> {
    match found(alloc, shape, words) {
        Ok(_) => None,
        Err(fault) => Some(fault),
    }
}

fn command(alloc: Global, words: &str) -> Result<Command, WordFault> {
    match split_words(alloc, words) {
        Ok(words) => read_words(alloc, words.as_slice()),
        Err(_) => Err(WordFault::Memory),
    }
}

/// Whether the instance is read under this name, in this layout.
fn is_named(source: Source<'_>, name: &str, mvp: bool) -> bool {
    match source {
        Source::Named {
            name: told,
            mvp: layout,
        } => told == name && layout == mvp,
        Source::Generated { .. } => false,
    }
}

/// Whether the instance is generated from this seed, with so many items.
fn is_generated(source: Source<'_>, seed: u64, size: u32) -> bool {
    match source {
        Source::Named { .. } => false,
        Source::Generated {
            seed: told,
            size: items,
        } => told == seed && items == size,
    }
}

#[test]
fn commands_are_read(rt: HostRuntime) -> Result<(), Fail> {
    let compile = command(rt.alloc(), "compile a.mvp")?;
    assert!(rt; matches!(&compile, Command::Compile { .. }) && compile.makes_graphs());
    assert!(rt; is_named(compile.source(), "a.mvp", true) && compile.workers() == 1);
    let export = command(rt.alloc(), "export -")?;
    assert!(rt; matches!(&export, Command::Export { .. }) && export.makes_graphs());
    assert!(rt; !export.is_joint());
    assert!(rt; is_named(export.source(), "-", false));
    assert_eq!(rt; export.into_name(rt.alloc())?.as_str(), "-");
    match command(rt.alloc(), "extract a.mvp -")? {
        Command::Extract {
            name,
            solution,
            mvp,
        } => assert_eq!(rt;
            (name.as_str(), solution.as_str(), mvp),
            ("a.mvp", "-", true)
        ),
        _ => panic!(rt; "another command is read"),
    }
    Ok(())
}

#[test]
fn joint_models_are_asked_for(rt: HostRuntime) -> Result<(), Fail> {
    for (words, asked) in [
        ("export a", ("a", false, false)),
        ("export a --joint", ("a", false, true)),
        ("export --joint --mvp -", ("-", true, true)),
        ("export --mvp -- --joint", ("--joint", true, false)),
    ] {
        match command(rt.alloc(), words)? {
            Command::Export { name, mvp, joint } => {
                assert_eq!(rt; (name.as_str(), mvp, joint), asked, "{words}");
            }
            _ => panic!(rt; "another command is read"),
        }
    }
    let export = command(rt.alloc(), "export --joint a")?;
    assert!(rt; export.is_joint() && !export.makes_graphs());
    Ok(())
}

#[test]
fn splits_are_granted(rt: HostRuntime) -> Result<(), Fail> {
    match command(rt.alloc(), "solve --mvp --workers=64 -- --a")? {
        Command::Solve {
            name,
            mvp,
            nodes,
            cert,
            workers,
        } => {
            assert_eq!(rt; (name.as_str(), mvp), ("--a", true));
            assert_eq!(rt; (nodes, workers), (DEFAULT_SPLITS, 64));
            assert_eq!(rt; cert.as_deref(), None);
        }
        _ => panic!(rt; "another command is read"),
    }
    let solve = command(rt.alloc(), "solve a.mvp --nodes=0 --cert b.cert")?;
    assert!(rt; solve.makes_graphs() && is_named(solve.source(), "a.mvp", true));
    assert_eq!(rt; solve.into_certificate().as_deref(), Some("b.cert"));
    Ok(())
}

#[test]
fn generated_instances_are_asked_for(rt: HostRuntime) -> Result<(), Fail> {
    match command(
        rt.alloc(),
        "make --nodes 20000 18446744073709551615 1000 --workers=8",
    )? {
        Command::Make {
            seed,
            size,
            nodes,
            workers,
        } => assert_eq!(rt; (seed, size, nodes, workers), (u64::MAX, 1_000, 20_000, 8)),
        _ => panic!(rt; "another command is read"),
    }
    let make = command(rt.alloc(), "make 00000000000000000000 007")?;
    assert!(rt; make.makes_graphs() && is_generated(make.source(), 0, 7));
    assert_eq!(rt; make.into_name(rt.alloc())?.as_str(), "make");
    Ok(())
}

#[test]
fn certificates_to_be_read_are_named(rt: HostRuntime) -> Result<(), Fail> {
    match command(rt.alloc(), "check - b.cert --workers 8")? {
        Command::Check {
            name,
            cert,
            mvp,
            workers,
        } => assert_eq!(rt;
            (name.as_str(), cert.as_str(), mvp, workers),
            ("-", "b.cert", false, 8)
        ),
        _ => panic!(rt; "another command is read"),
    }
    Ok(())
}

#[test]
fn certificates_to_be_written_are_named(rt: HostRuntime) -> Result<(), Fail> {
    match command(rt.alloc(), "bound --cert=b.cert a.mvp")? {
        Command::Bound { name, mvp, cert } => {
            assert_eq!(rt; (name.as_str(), mvp), ("a.mvp", true));
            assert_eq!(rt; cert.as_deref(), Some("b.cert"));
        }
        _ => panic!(rt; "another command is read"),
    }
    for (words, name) in [
        ("bound a", None),
        ("bound a --cert c", Some("c")),
        ("check a c", None),
        ("solve a", None),
        ("solve a --cert=c=d", Some("c=d")),
        ("make 1 1", None),
    ] {
        let cert = command(rt.alloc(), words)?.into_certificate();
        assert_eq!(rt; cert.as_deref(), name, "{words}");
    }
    Ok(())
}

#[test]
fn first_faulty_words_are_named(rt: HostRuntime) {
    for (words, fault) in [
        ("", WordFault::NoCommand),
        ("--mvp solve", WordFault::NoSuchCommand { word: 1 }),
        ("solve", WordFault::TooFewWords),
        ("compile a --cert b", WordFault::NoSuchOption { word: 3 }),
        ("solve a --mvp --mvp=1", WordFault::Repeated { word: 4 }),
        ("solve a --mvp=1 b", WordFault::BadValue { word: 3 }),
        ("export a b", WordFault::TooManyWords { word: 3 }),
        ("export  --joint", WordFault::BadName { word: 2 }),
        ("compile a --workers 65", WordFault::BadValue { word: 4 }),
        ("solve a --workers=0", WordFault::BadValue { word: 3 }),
        ("compile a --workers", WordFault::NoValue { word: 3 }),
        ("export a --workers 2", WordFault::NoSuchOption { word: 3 }),
        ("export a --joint=1", WordFault::BadValue { word: 3 }),
        ("export --joint a --joint", WordFault::Repeated { word: 4 }),
        ("compile a --joint", WordFault::NoSuchOption { word: 3 }),
        ("extract a b --joint", WordFault::NoSuchOption { word: 4 }),
        ("extract - -", WordFault::BadName { word: 3 }),
        ("extract a ", WordFault::BadName { word: 3 }),
        ("extract a", WordFault::TooFewWords),
        ("check - -", WordFault::BadName { word: 3 }),
        ("check a b --cert c", WordFault::NoSuchOption { word: 4 }),
        ("bound - -", WordFault::TooManyWords { word: 3 }),
        ("bound a --cert -", WordFault::BadValue { word: 4 }),
        ("bound a --cert=", WordFault::BadValue { word: 3 }),
        ("bound a --cert", WordFault::NoValue { word: 3 }),
        ("bound a --workers 2", WordFault::NoSuchOption { word: 3 }),
        ("solve a --nodes 20001", WordFault::BadValue { word: 4 }),
        (
            "solve a --nodes=5 --nodes 6",
            WordFault::Repeated { word: 4 },
        ),
        ("solve a --cert=-", WordFault::BadValue { word: 3 }),
        ("solve a --cert", WordFault::NoValue { word: 3 }),
        ("compile a --nodes 1", WordFault::NoSuchOption { word: 3 }),
        ("make", WordFault::TooFewWords),
        ("make 1", WordFault::TooFewWords),
        ("make - 1", WordFault::BadValue { word: 2 }),
        (
            "make 18446744073709551616 1",
            WordFault::BadValue { word: 2 },
        ),
        ("make 1 0", WordFault::BadValue { word: 3 }),
        ("make 1 1001", WordFault::BadValue { word: 3 }),
        ("make 1 1 1", WordFault::TooManyWords { word: 4 }),
        ("make 1 1 --mvp", WordFault::NoSuchOption { word: 4 }),
        ("make 1 1 --cert c", WordFault::NoSuchOption { word: 4 }),
    ] {
        match command(rt.alloc(), words) {
            Ok(_) => panic!(rt; "{words} is read"),
            Err(told) => assert_eq!(rt; told, fault, "{words}"),
        }
    }
}

#[test]
fn values_are_checked_at_their_word(rt: HostRuntime) {
    let shape = every_option(PlainWord::Instance, None);
    for (words, told) in [
        ("a --nodes 20001", Some(WordFault::BadValue { word: 4 })),
        (
            "a --nodes=5 --nodes 6",
            Some(WordFault::Repeated { word: 4 }),
        ),
        ("a --nodes", Some(WordFault::NoValue { word: 3 })),
        ("a --nodes=", Some(WordFault::BadValue { word: 3 })),
        ("a --workers 0", Some(WordFault::BadValue { word: 4 })),
        ("a --workers=65 b", Some(WordFault::BadValue { word: 3 })),
        ("a --joint=1", Some(WordFault::BadValue { word: 3 })),
        ("a --cert -", Some(WordFault::BadValue { word: 4 })),
        ("--cert -- b --mvp", None),
        ("--nodes 00000000000000020000 a", None),
        (
            "--nodes 000000000000000020000 a",
            Some(WordFault::BadValue { word: 3 }),
        ),
    ] {
        assert_eq!(rt; fault(rt.alloc(), shape, words), told, "{words}");
    }
}

#[test]
fn two_plain_words_are_checked(rt: HostRuntime) {
    let check = every_option(PlainWord::Instance, Some(PlainWord::Certificate));
    assert_eq!(rt;
        fault(rt.alloc(), check, "- -"),
        Some(WordFault::BadName { word: 3 })
    );
    assert_eq!(rt; fault(rt.alloc(), check, "- a"), None);
    assert_eq!(rt; fault(rt.alloc(), check, "a"), Some(WordFault::TooFewWords));
    let extract = every_option(PlainWord::Instance, Some(PlainWord::Solution));
    assert_eq!(rt;
        fault(rt.alloc(), extract, "a "),
        Some(WordFault::BadName { word: 3 })
    );
}

#[test]
fn values_are_found(rt: HostRuntime) -> Result<(), Fail> {
    let shape = every_option(PlainWord::Instance, Some(PlainWord::Certificate));
    let found = found(rt.alloc(), shape, "--cert=b=c a --nodes 007 -- --mvp")?;
    assert_eq!(rt; found.plain(0), Some("a"));
    assert_eq!(rt; found.plain(1), Some("--mvp"));
    assert_eq!(rt; found.value(Setting::Cert), Some("b=c"));
    assert_eq!(rt; found.number(Setting::Nodes), Some(7));
    assert_eq!(rt; found.number(Setting::Workers), None);
    assert!(rt; found.has(Setting::Cert) && !found.has(Setting::Mvp));
    Ok(())
}

#[test]
fn lines_are_said(rt: HostRuntime) -> Result<(), Fail> {
    for (fault, said) in [
        (WordFault::NoCommand, "vpack: no command\n"),
        (
            WordFault::NoSuchCommand { word: 1 },
            "vpack: word 1: no such command\n",
        ),
        (
            WordFault::NoSuchOption { word: 2 },
            "vpack: word 2: no such option\n",
        ),
        (
            WordFault::Repeated { word: 3 },
            "vpack: word 3: option repeated\n",
        ),
        (
            WordFault::NoValue { word: 4 },
            "vpack: word 4: value missing\n",
        ),
        (
            WordFault::TooManyWords { word: 5 },
            "vpack: word 5: one word too many\n",
        ),
        (
            WordFault::BadValue { word: 16 },
            "vpack: word 16: bad value\n",
        ),
        (WordFault::BadName { word: 7 }, "vpack: word 7: bad name\n"),
        (WordFault::TooFewWords, "vpack: too few words\n"),
        (WordFault::Memory, "vpack: out of memory\n"),
    ] {
        let mut line = Vec::new(rt.alloc());
        push_word_fault(&mut line, fault)?;
        assert_eq!(rt; line.as_slice(), said.as_bytes());
    }
    Ok(())
}

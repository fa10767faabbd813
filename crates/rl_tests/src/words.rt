//! Words that ask, and words that don't.
use gr_text::Name;
use rl_words::*;
use std::test::Fail;

/// The file and the budget that the words ask for.
fn asked(rt: HostRuntime, words: &[&str]) -> Result<Option<(String, u32)>, Fail> {
    let alloc = rt.alloc();
    let mut names = Vec::new(alloc);
    for word in words {
        names.push(Name::new(alloc, word)?)?;
    }
    match compile_request(names.as_slice()) {
        Some(request) => {
            let file = String::from_str(alloc, request.file.as_str())?;
            Ok(Some((file, request.models)))
        }
        None => Ok(None),
    }
}

#[test]
fn a_file_and_its_budget(rt: HostRuntime) -> Result<(), Fail> {
    const ROWS: [(&[&str], u32); 5] = [
        (&["compile", "a.mg"], 20_000),
        (&["compile", "a.mg", "--models", "7"], 7),
        (&["compile", "--models", "0", "a.mg"], 0),
        (&["compile", "--models", "50000", "a.mg"], 50_000),
        (&["compile", "a.mg", "--models", "10"], 10),
    ];
    for (words, models) in ROWS {
        let Some((file, number)) = asked(rt, words)? else {
            panic!(rt; "refused");
        };
        assert_eq!(rt; file.as_str(), "a.mg");
        assert_eq!(rt; number, models);
    }
    Ok(())
}

#[test]
fn other_words_ask_nothing(rt: HostRuntime) -> Result<(), Fail> {
    const ROWS: [&[&str]; 16] = [
        &[],
        &["compile"],
        &["compile", ""],
        &["compile", "-"],
        &["compile", "a.mg", "b.mg"],
        &["compile", "a.mg", "--models"],
        &["compile", "--models", "a.mg"],
        &["compile", "a.mg", "--models", "50001"],
        &["compile", "a.mg", "--models", "007"],
        &["compile", "a.mg", "--models", "-1"],
        &["compile", "a.mg", "--models", ""],
        &["compile", "a.mg", "--models", "1", "--models", "1"],
        &["compile", "a.mg", "--models=1"],
        &["compile", "--", "a.mg"],
        &["compile", "a.mg", "--report"],
        &["a.mg", "compile"],
    ];
    for words in ROWS {
        assert!(rt; asked(rt, words)?.is_none());
    }
    Ok(())
}

//! Lines of refusals.
ghost use Rattle.gr_symbols.specs.Numbers.{first_texts};
ghost use Rattle.rl_refusals.specs.Lines.{HasTexts};

use gr_symbols::Symbols;
use gr_terms::{ANCHOR, COANCHOR, EMPTY, FOOT, MARK, Syms};
use gr_text::Place;
use mg_syntax::Ref;
use rl_refusals::*;
use std::test::Fail;

const PLACE: Place = Place {
    line: 3,
    column: 14,
};

/// Tells whether the line of a refusal is this one. Its names are those that each table has.
fn has_line(rt: HostRuntime, refusal: &Refusal, wanted: &str) -> Result<bool, Fail>
    requires { HasTexts first_texts refusal.now }
{
    let alloc = rt.alloc();
    let symbols = Symbols::new(alloc)?;
    let mut line = String::new(alloc);
    push_line(&mut line, refusal, &symbols)?;
    Ok(line.as_str() == wanted)
}

#[test]
fn files_have_roles_and_places(rt: HostRuntime) -> Result<(), Fail> {
    let role = Role::Metagrammar;
    assert!(rt;
        has_line(
            rt,
            &Refusal::Syntax(role, PLACE),
            "refused 10 metagrammar 3 14\n"
        )?
    );
    assert!(rt;
        has_line(
            rt,
            &Refusal::NotUtf8(Role::Grammar, 7),
            "refused 11 grammar 7\n"
        )?
    );
    assert!(rt; has_line(rt, &Refusal::TooLong(Role::Lexicon), "refused 12 lexicon\n")?);
    assert!(rt;
        has_line(
            rt,
            &Refusal::DuplicateAttribute(Role::Inputs, PLACE),
            "refused 18 inputs 3 14\n"
        )?
    );
    assert!(rt;
        has_line(
            rt,
            &Refusal::TooManyClasses(Role::Forms),
            "refused 21 forms\n"
        )?
    );
    Ok(())
}

#[test]
fn names_are_spelled(rt: HostRuntime) -> Result<(), Fail> {
    assert!(rt; has_line(rt, &Refusal::UnknownClass(FOOT), "refused 13 foot\n")?);
    assert!(rt; has_line(rt, &Refusal::DuplicateClass(EMPTY), "refused 15 \"\"\n")?);
    assert!(rt; has_line(rt, &Refusal::TooManyNodes(FOOT), "refused 20 foot\n")?);
    assert!(rt; has_line(rt, &Refusal::TooLarge(FOOT), "refused 24 foot\n")?);
    Ok(())
}

#[test]
fn variables_have_a_mark(rt: HostRuntime) -> Result<(), Fail> {
    let variable = Ref {
        of: None,
        name: MARK,
    };
    let dotted = Ref {
        of: Some(ANCHOR),
        name: MARK,
    };
    assert!(rt;
        has_line(
            rt,
            &Refusal::UndeclaredVariable(FOOT, variable),
            "refused 16 foot ?mark\n"
        )?
    );
    assert!(rt;
        has_line(
            rt,
            &Refusal::NotExported(FOOT, dotted),
            "refused 17 foot ?anchor.?mark\n"
        )?
    );
    Ok(())
}

#[test]
fn a_cycle_is_its_classes(rt: HostRuntime) -> Result<(), Fail> {
    let mut cycle: Syms = Syms::new(rt.alloc());
    cycle.push(COANCHOR)?;
    cycle.push(FOOT)?;
    assert!(rt;
        has_line(
            rt,
            &Refusal::ClassCycle(cycle),
            "refused 14 coanchor foot\n"
        )?
    );
    Ok(())
}

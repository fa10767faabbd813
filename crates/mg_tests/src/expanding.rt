//! Expansions of classes of small metagrammars, told by the predicates of their literals.
use gr_base::Memory;
use gr_symbols::Symbols;
use gr_terms::{Sym, Term};
use gr_text::Budget;
use mg_expand::{Expander, Step};
use mg_reader::read_metagrammar;
use mg_scope::{Resolved, resolve};
use std::alloc::Global;
use std::test::Fail;
use td_desc::Description;

/// The metagrammar that a text spells, with rules of scope that are kept.
fn resolved(alloc: Global, text: &str, symbols: &mut Symbols) -> Result<Resolved, Memory> {
    if text.len() > 1_048_576 {
        return Err(Memory);
    }
    let Ok(metagrammar) = read_metagrammar(alloc, text.as_bytes(), symbols) else {
        return Err(Memory);
    };
    let Ok(resolved) = resolve(alloc, metagrammar) else {
        return Err(Memory);
    };
    Ok(resolved)
}

/// Appends the predicates of the literals.
fn push_predicates(out: &mut String, d: &Description, symbols: &Symbols) -> Result<(), Memory> {
    let mut separator = "";
    for literal in d.sem.as_slice() {
        if let Term::Const(name) = literal.pred {
            if (name.0 as usize) < symbols.len() {
                out.push_str(separator)?;
                out.push_str(symbols.text(name))?;
                separator = " ";
            }
        }
    }
    Ok(())
}

/// Appends what a step tells.
fn push_step(out: &mut String, step: &Step, symbols: &Symbols) -> Result<(), Memory> {
    match step {
        Step::Description(d) => push_predicates(out, d, symbols)?,
        Step::Clash => out.push_str("CLASH")?,
        Step::TooLarge => out.push_str("TOO LARGE")?,
        Step::End => out.push_str("END")?,
        Step::Cut => out.push_str("CUT")?,
    }
    Ok(())
}

/// Appends what the next call with this budget tells, and what is left of it.
fn push_next(
    out: &mut String,
    alloc: Global,
    expander: &mut Expander<'_>,
    left: u32,
    symbols: &Symbols,
) -> Result<(), Memory> {
    let mut budget = Budget { left };
    let step = expander.next(&mut budget)?;
    push_step(out, &step, symbols)?;
    let left = format!(in alloc; " {};", budget.left)?;
    out.push_str(left.as_str())?;
    Ok(())
}

/// What the calls with these budgets tell.
fn told_by(
    alloc: Global,
    expander: &mut Expander<'_>,
    budgets: &[u32],
    symbols: &Symbols,
) -> Result<String, Memory> {
    let mut out = String::new(alloc);
    for left in budgets {
        push_next(&mut out, alloc, expander, *left, symbols)?;
    }
    Ok(out)
}

/// What the class `A` of a metagrammar gives, by calls with these budgets; behind each answer stands
/// what is left, and a semicolon.
fn told(alloc: Global, text: &str, budgets: &[u32]) -> Result<String, Memory> {
    let mut symbols = Symbols::new(alloc)?;
    let resolved = resolved(alloc, text, &mut symbols)?;
    let Some(class) = symbols.find("A") else {
        return Err(Memory);
    };
    if resolved.class(class).is_none() {
        return Err(Memory);
    }
    let mut expander = Expander::new(alloc, &resolved, class)?;
    told_by(alloc, &mut expander, budgets, &symbols)
}

/// What the first calls give, each with a budget of 9.
fn given(alloc: Global, text: &str) -> Result<String, Memory> {
    told(alloc, text, &[9, 9, 9, 9, 9, 9, 9])
}

#[test]
fn the_last_choice_varies_fastest(rt: HostRuntime) -> Result<(), Fail> {
    let alloc = rt.alloc();
    let body = "{ <sem>{ a() } | <sem>{ b() } } ; { <sem>{ c() } | <sem>{ d() } | <sem>{ e() } }";
    let text = format!(in alloc; "class A {{ {body} }}")?;
    let given = given(alloc, text.as_str())?;
    assert_eq!(rt;
        given.as_str(),
        "a c 8;a d 8;a e 8;b c 8;b d 8;b e 8;END 9;"
    );
    Ok(())
}

#[test]
fn choices_that_are_met(rt: HostRuntime) -> Result<(), Fail> {
    let alloc = rt.alloc();
    let body = "{ { <sem>{ a() } | <sem>{ b() } } ; <sem>{ c() } | <sem>{ d() } }";
    let text = format!(in alloc; "class A {{ {body} ; {{ <sem>{{ e() }} | <sem>{{ f() }} }} }}")?;
    let given = given(alloc, text.as_str())?;
    assert_eq!(rt;
        given.as_str(),
        "a c e 8;a c f 8;b c e 8;b c f 8;d e 8;d f 8;END 9;"
    );
    Ok(())
}

#[test]
fn imports_come_first(rt: HostRuntime) -> Result<(), Fail> {
    let alloc = rt.alloc();
    let imported = "class B { <sem>{ b() } | <sem>{ y() } } class C { <sem>{ c() } }";
    let text = format!(in alloc;
        "class A import B[] C[] {{ <sem>{{ a() }} | <sem>{{ z() }} }} {imported}"
    )?;
    let given = given(alloc, text.as_str())?;
    assert_eq!(rt;
        given.as_str(),
        "b c a 8;b c z 8;y c a 8;y c z 8;END 9;END 9;END 9;"
    );
    Ok(())
}

#[test]
fn each_call_chooses_by_itself(rt: HostRuntime) -> Result<(), Fail> {
    let alloc = rt.alloc();
    let called = "class B { <sem>{ b() } | <sem>{ c() } }";
    let text = format!(in alloc; "class A {{ B[] ; <sem>{{ a() }} ; B[] }} {called}")?;
    let told = told(alloc, text.as_str(), &[9, 9, 9, 9, 9])?;
    assert_eq!(rt; told.as_str(), "b a b 8;b a c 8;c a b 8;c a c 8;END 9;");
    Ok(())
}

#[test]
fn choices_clash(rt: HostRuntime) -> Result<(), Fail> {
    let alloc = rt.alloc();
    let body = "{ ?x = p ; <sem>{ a() } | ?x = q } ; { ?x = p | ?x = q }";
    let text = format!(in alloc; "class A declare ?x {{ {body} }}")?;
    let told = told(alloc, text.as_str(), &[9, 9, 9, 9, 9])?;
    assert_eq!(rt; told.as_str(), "a 8;CLASH 8;CLASH 8; 8;END 9;");
    Ok(())
}

/// What a class gives that comes to the class `B`, which exports a variable with one of two values.
fn beside(alloc: Global, class: &str) -> Result<String, Memory> {
    let other = "class B export ?x declare ?x { ?x = p | ?x = q ; <sem>{ b() } }";
    let text = format!(in alloc; "{class} {other}")?;
    told(alloc, text.as_str(), &[9, 9, 9])
}

#[test]
fn what_is_imported_is_one(rt: HostRuntime) -> Result<(), Fail> {
    let alloc = rt.alloc();
    let imported = beside(alloc, "class A import B[] { ?x = q }")?;
    assert_eq!(rt; imported.as_str(), "CLASH 8;b 8;END 9;");
    let called = beside(alloc, "class A declare ?x { B[] ; ?x = q }")?;
    assert_eq!(rt; called.as_str(), " 8;b 8;END 9;");
    let bound = beside(alloc, "class A declare ?y { ?y = B[] ; ?y.?x = q }")?;
    assert_eq!(rt; bound.as_str(), "CLASH 8;b 8;END 9;");
    Ok(())
}

#[test]
fn a_budget_is_spent(rt: HostRuntime) -> Result<(), Fail> {
    let alloc = rt.alloc();
    let text = "class A { <sem>{ a() } | <sem>{ b() } | <sem>{ c() } }";
    let told = told(alloc, text, &[0, 2, 0, 0, 1, 1, 0, 5])?;
    assert_eq!(rt; told.as_str(), "CUT 0;a 1;CUT 0;CUT 0;b 0;c 0;END 0;END 5;");
    Ok(())
}

/// A metagrammar whose class has so many literals in its second alternative.
fn large(alloc: Global, literals: u32) -> Result<String, Memory> {
    let mut text = String::new(alloc);
    text.push_str("class A { <sem>{ a() } | <sem>{ ")?;
    for _ in 0..literals {
        text.push_str("p() ")?;
    }
    text.push_str("} | <sem>{ b() } }")?;
    Ok(text)
}

#[test]
fn the_limit_on_items(rt: HostRuntime) -> Result<(), Fail> {
    let alloc = rt.alloc();
    // The call counts too.
    let within = told(alloc, large(alloc, 4095)?.as_str(), &[9, 9, 9, 9])?;
    assert!(rt; within.as_str().starts_with("a 8;p p p"));
    assert!(rt; within.as_str().ends_with("p p 8;b 8;END 9;"));
    let beyond = told(alloc, large(alloc, 4096)?.as_str(), &[9, 9, 9, 0])?;
    assert_eq!(rt; beyond.as_str(), "a 8;TOO LARGE 8;TOO LARGE 9;TOO LARGE 0;");
    Ok(())
}

/// A metagrammar whose class imports one that exports each of this many variables twice, and gives the last
/// of them a value.
fn exporting(alloc: Global, count: u32) -> Result<String, Memory> {
    let mut names = String::new(alloc);
    for number in 0..count {
        let name = format!(in alloc; " ?x{number}")?;
        names.push_str(name.as_str())?;
    }
    let names = names.as_str();
    let last = count.saturating_sub(1);
    let classes = format!(in alloc;
        "class A import B[] {{ ?x{last} = q }} class B export {names} {names}"
    )?;
    let body = format!(in alloc;
        "declare {names} {{ ?x{last} = p | ?x{last} = q ; <sem>{{ b() }} }}"
    )?;
    Ok(format!(in alloc; "{classes} {body}")?)
}

#[test]
fn exports_are_gathered_once(rt: HostRuntime) -> Result<(), Fail> {
    let alloc = rt.alloc();
    for count in [1, 12, 13, 24, 25, 90] {
        let text = exporting(alloc, count)?;
        let told = told(alloc, text.as_str(), &[9, 9, 9])?;
        assert_eq!(rt; told.as_str(), "CLASH 8;b 8;END 9;", "of {count}");
    }
    Ok(())
}

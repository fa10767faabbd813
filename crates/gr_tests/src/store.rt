use gr_store::*;
use gr_terms::{SlotId, Sym, Term};

const NUM: Sym = Sym(20);

const SG: Term = Term::Const(Sym(21));

const PL: Term = Term::Const(Sym(22));

#[test]
fn store_script(rt: HostRuntime) {
    let room = Room {
        vars: 2,
        slots: 2,
        entries: 3,
        assertions: 6,
    };
    let made = Store::with_room(rt.alloc(), room);
    let Ok(mut store) = made else {
        assert!(rt; false, "no memory");
        return;
    };
    let a = store.fresh();
    let b = store.fresh();
    let s = store.slot();
    let t = store.slot();
    assert!(rt; store.put(s, NUM, a));
    assert!(rt; store.put(t, NUM, SG));
    let mark = store.mark();
    assert!(rt; store.link(s, t));
    assert_eq!(rt; store.constant_of(a), Some(Sym(21)));
    assert!(rt; !store.put(t, NUM, PL));
    assert!(rt; store.equate(b, PL));
    assert!(rt; !store.equate(a, b));
    store.undo(mark);
    assert_eq!(rt; store.constant_of(a), None);
    assert_eq!(rt; store.constant_of(b), None);
    assert!(rt; store.equate(a, b));
    assert!(rt; store.link(s, t));
    assert_eq!(rt; store.constant_of(b), Some(Sym(21)));
    assert_eq!(rt; store.spare().assertions, 2);
}

use gr_base::Memory;
use gr_symbols::Symbols;
use mg_printer::print_metagrammar;
use mg_reader::read_metagrammar;
use std::alloc::Global;
use std::test::Fail;

/// The canonical spelling of what the text spells, `None` where the text isn't read.
fn canonical(alloc: Global, text: &str) -> Result<Option<String>, Memory> {
    let bytes = text.as_bytes();
    if bytes.len() > 1_048_576 {
        return Ok(None);
    }
    let mut symbols = Symbols::new(alloc)?;
    let Ok(m) = read_metagrammar(alloc, bytes, &mut symbols) else {
        return Ok(None);
    };
    let printed = print_metagrammar(alloc, &m, &symbols)?;
    Ok(Some(printed))
}

#[test]
fn texts_have_their_canonical_spelling(rt: HostRuntime) -> Result<(), Fail> {
    // A text, and its canonical spelling, which is its own.
    const CASES: [(&str, &str); 11] = [
        ("", ""),
        (
            "class A { <syn>{ node [cat=s] } } value A",
            "class A { < syn > { node [ cat = s ] } }\nvalue A\n",
        ),
        ("class A{}%x\nclass B { }", "class A { }\nclass B { }\n"),
        (
            "class A import B[] C[] export ?x ?y declare ?z {}",
            "class A import B [ ] C [ ] export ?x ?y declare ?z { }\n",
        ),
        (
            "class A{B[];?x=B[]|{?x=?y;?x.?y=\"a b\"|{}};?z=\"np\"}",
            "class A { B [ ] ; ?x = B [ ] | { ?x = ?y ; ?x . ?y = \"a b\" | { } } ; ?z = np }\n",
        ),
        (
            "class A{<syn>{?a->?b;?a->+?b;?a->*?b;?a>>?b;?a>>+?b;?a>>*?b;?a=?b.?c}}",
            "class A { < syn > { ?a -> ?b ; ?a ->+ ?b ; ?a ->* ?b ; ?a >> ?b ; ?a >>+ ?b ; ?a >>* ?b ; ?a = ?b . ?c } }\n",
        ),
        (
            "class A{<syn>{node?x.?y(mark=anchor,k=\"\",color=red,top=v)[bot=[b=?z],top=[a=\"1\",c=?d.?e],cat=?q]{}}}",
            "class A { < syn > { node ?x . ?y ( color = red , mark = anchor , k = \"\" , top = v ) [ cat = ?q , top = [ a = 1 , c = ?d . ?e ] , bot = [ b = ?z ] ] } }\n",
        ),
        (
            "class A{<syn>{node()[]{};node(color=black);node[top=[],bot=[]]}}",
            "class A { < syn > { node ; node ( color = black ) ; node } }\n",
        ),
        (
            "class A{<syn>{node{node ...node(color=white){node},,,...+node,,,node}}}",
            "class A { < syn > { node { node ... node ( color = white ) { node } ,,, ...+ node ,,, node } } }\n",
        ),
        (
            "class A{<sem>{?e:eat(?x,?y);\"a b\"();p(c d)q(?x.?y)};<iface>{[e=?e,i=\"x-y\"]};<sem>{};<syn>{};<iface>{[]}}",
            "class A { < sem > { ?e : eat ( ?x ?y ) \"a b\" ( ) p ( c d ) q ( ?x . ?y ) } ; < iface > { [ e = ?e , i = x-y ] } ; < sem > { } ; < syn > { } ; < iface > { [ ] } }\n",
        ),
        (
            "type T!type U={a,\"b\",\"\"}property p:T feature f:U use P with(x=y,z)dims(syn)use Q with()dims(sem)",
            "type T !\ntype U = { a , b , \"\" }\nproperty p : T\nfeature f : U\nuse P with ( x = y , z ) dims ( syn )\nuse Q with ( ) dims ( sem )\n",
        ),
    ];
    for (text, wanted) in CASES {
        match canonical(rt.alloc(), text)? {
            Some(printed) => {
                assert_eq!(rt; printed.as_str(), wanted, "{text}");
                match canonical(rt.alloc(), printed.as_str())? {
                    Some(again) => assert_eq!(rt; again.as_str(), wanted),
                    None => assert!(rt; false, "a spelling is refused"),
                }
            }
            None => assert!(rt; false, "a text is refused"),
        }
    }
    Ok(())
}

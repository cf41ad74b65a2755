use std::process::Abort;
use up_fresh::FreshNames;
use up_text::Name;

fn name(rt: &(impl Abort + AllocGlobal), text: &str) -> Name {
    let read = Name::of_bytes(rt.alloc(), text.as_bytes());
    read.expect(rt, "memory").expect(rt, "a name")
}

fn given(rt: &(impl Abort + AllocGlobal)) -> FreshNames {
    let mut names = FreshNames::new(rt.alloc());
    for text in ["move", "move-1", "move-5", "pick"] {
        assert!(rt; names.add(name(rt, text)).expect(rt, "memory"), "{text}");
    }
    names
}

fn next_move(rt: &(impl Abort + AllocGlobal), names: &mut FreshNames) -> Name {
    names.next(rt.alloc(), b"move").expect(rt, "memory")
}

fn next_reserved(rt: &(impl Abort + AllocGlobal), names: &mut FreshNames) -> Name {
    names.next(rt.alloc(), b"scale-up").expect(rt, "memory")
}

#[test]
fn names_over_a_base_are_fresh(rt: HostRuntime) {
    let mut names = given(&rt);
    assert!(rt; !names.add(name(&rt, "move")).expect(&rt, "memory"));
    for want in ["move-2", "move-3", "move-4", "move-6", "move-7"] {
        assert!(rt; !names.has(&name(&rt, want)), "{want}");
        assert_eq!(rt; next_move(&rt, &mut names).bytes(), want.as_bytes());
        assert!(rt; names.has(&name(&rt, want)), "{want}");
    }
}

#[test]
fn names_over_a_reserved_word_are_fresh(rt: HostRuntime) {
    let mut names = given(&rt);
    for want in ["scale-up-1", "scale-up-2"] {
        assert_eq!(rt; next_reserved(&rt, &mut names).bytes(), want.as_bytes());
        assert!(rt; names.add(name(&rt, "scale")).is_ok());
    }
}

#[test]
fn bases_meet(rt: HostRuntime) {
    let mut names = given(&rt);
    let nested = names.next(rt.alloc(), b"move-1").expect(&rt, "memory");
    assert_eq!(rt; nested.bytes(), b"move-1-1".as_slice());
    let ahead = names.next(rt.alloc(), b"move-2").expect(&rt, "memory");
    assert_eq!(rt; ahead.bytes(), b"move-2".as_slice());
    assert_eq!(rt; next_move(&rt, &mut names).bytes(), b"move-3".as_slice());
    assert!(rt; names.add(name(&rt, "move-4")).expect(&rt, "memory"));
    assert_eq!(rt; next_move(&rt, &mut names).bytes(), b"move-6".as_slice());
    let pick = names.next(rt.alloc(), b"pick").expect(&rt, "memory");
    assert_eq!(rt; pick.bytes(), b"pick-1".as_slice());
}

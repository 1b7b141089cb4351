// The test calls each public lemma once; at run time the call
// does nothing.
use mq_model::{
    ModelFault, examples_are_answered, first_bad_word, print_model, printed_models_are_read,
    read_model,
};
use std::alloc::Global;

mod base;
mod outside;

// Returns whether this is the canonical text of the model that a
// text declares.
fn is_printed(alloc: Global, text: &[u8], wanted: &[u8]) -> Result<bool, ModelFault> {
    let plan = read_model(alloc, text)?;
    let printed = print_model(alloc, &plan);
    drop(plan);
    Ok(printed?.as_slice() == wanted)
}

fn prints(alloc: Global, text: &[u8], wanted: &[u8]) -> bool {
    match is_printed(alloc, text, wanted) {
        Ok(same) => same,
        Err(_) => false,
    }
}

// Returns whether this is the canonical text of a text, and of
// itself.
fn is_canonical(alloc: Global, canonical: &[u8], text: &[u8]) -> bool {
    prints(alloc, text, canonical) && prints(alloc, canonical, canonical)
}

#[test]
fn plans_are_printed(rt: HostRuntime) {
    first_bad_word();
    examples_are_answered();
    printed_models_are_read();
    assert!(rt;
        prints(
            rt.alloc(),
            b"model 1\nsource src\nserver desk d from src\n",
            b"model 1\nbound 1152921504606846976\nsource src\nserver desk d from src\n",
        )
    );
}

#[test]
fn printed_texts_print_the_same(rt: HostRuntime) {
    let text =
        b"# Three splits.\r\nmodel\t1\n\nsource s\nbound 0100\n  # by turns\nsplit p 2 turn from s.0\nsplit m 03 mod kind from p\nsplit c cut size 0 10 from p.1\nserver q =007 from m.2 m  c.2\nserver r size from c\ndelay w kind from q\n\tdelay v =000 from m.1\nloss b 03 size from r.0 v\ntandem t =01 / 04 size / 1 =9 from b.1 b\nforkjoin f size =1 | =02 |  kind from w t";
    let canonical =
        b"model 1\nbound 100\nsource s\nsplit p 2 turn from s\nsplit m 3 mod kind from p\nsplit c cut size 0 10 from p.1\nserver q =7 from m.2 m c.2\nserver r size from c\ndelay w kind from q\ndelay v =0 from m.1\nloss b 3 size from r v\ntandem t =1 / 4 size / 1 =9 from b.1 b\nforkjoin f size =1 | =2 | kind from w t\n";
    assert!(rt; is_canonical(rt.alloc(), canonical, text));
}

#[test]
fn forks_and_joins_are_printed(rt: HostRuntime) {
    let text =
        b"# Parts.\nmodel  2\nsource s\nfork f 03 from s.0\nserver q =1 from f.2\njoin j from q f.1 f\nfork g 2 from j";
    let canonical =
        b"model 2\nbound 1152921504606846976\nsource s\nfork f 3 from s\nserver q =1 from f.2\njoin j from q f.1 f\nfork g 2 from j\n";
    assert!(rt; is_canonical(rt.alloc(), canonical, text));
}

#[test]
fn trunk_groups_are_printed(rt: HostRuntime) {
    let text =
        b"model 2\nsource s\ntrunk t 024 call from s\ntrunk u 255 =07 from t.1\ntrunk v 1 call from u.1 t.0 u";
    let canonical =
        b"model 2\nbound 1152921504606846976\nsource s\ntrunk t 24 call from s\ntrunk u 255 =7 from t.1\ntrunk v 1 call from u.1 t u\n";
    assert!(rt; is_canonical(rt.alloc(), canonical, text));
}

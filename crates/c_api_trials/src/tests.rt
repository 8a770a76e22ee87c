// The worked example, faults of the texts, a damaged byte and a short output.
use c_api::answer::{CheckAnswer, ReadAnswer, Refused, SettleAnswer};
use c_api::calls::{
    sanqizhet_check_nonnull, sanqizhet_read_log_nonnull, sanqizhet_read_rules_nonnull,
    sanqizhet_settle_nonnull,
};

const RULES: &[u8] = b"line kind from to left right\n0 m - - 0 -\n1 m - - 1 -\n2 s 0 5 0 1\n";

const LOG: &[u8] = b"time clamp heel\n0 1 0\n2 1 1\n4 1 0\n4 0 0\n9 1 0\n";

// Line 2 broken at row 3.
const CERTIFICATE: [u8; 18] = [0, 2, 0, 3, 0, 0, 1, 2, 0, 3, 0, 0, 2, 21, 0, 3, 0, 2];

// No refusal, written out: the values are the tests' own.
const NOTHING: Refused = Refused {
    number: 0,
    text: 0,
    layer: 0,
    line: 0,
    field: 0,
    node: 0,
};

fn refused_check(refusal: Refused) -> CheckAnswer {
    CheckAnswer {
        refusal,
        line: 0,
        row: 0,
        ruling: 0,
    }
}

fn refused_settle(refusal: Refused) -> SettleAnswer {
    SettleAnswer {
        refusal,
        ruling: 0,
        size: 0,
    }
}

#[test]
fn texts_are_read(rt: HostRuntime) {
    let refusal = NOTHING;
    assert_eq!(rt;
        sanqizhet_read_rules_nonnull(RULES),
        ReadAnswer { refusal, count: 3 }
    );
    assert_eq!(rt;
        sanqizhet_read_log_nonnull(LOG),
        ReadAnswer { refusal, count: 5 }
    );
}

// A fault tells the text, the layer, the line and the field, and the entries before it are counted.
#[test]
fn faulty_texts_are_refused(rt: HostRuntime) {
    let rules = b"line kind from to left right\n0 m - - 0 -\n1 m - - 01 -\n";
    let form = Refused {
        number: 31,
        text: 1,
        layer: 1,
        line: 3,
        field: 5,
        node: 0,
    };
    assert_eq!(rt;
        sanqizhet_read_rules_nonnull(rules),
        ReadAnswer {
            refusal: form,
            count: 1,
        }
    );
    let log = b"time clamp\n4 1\n5 1\n3 1\n";
    let falls = Refused {
        number: 7,
        text: 2,
        layer: 3,
        line: 4,
        field: 0,
        node: 0,
    };
    assert_eq!(rt;
        sanqizhet_read_log_nonnull(log),
        ReadAnswer {
            refusal: falls,
            count: 2,
        }
    );
    assert_eq!(rt;
        sanqizhet_check_nonnull(rules, log, &CERTIFICATE),
        refused_check(form)
    );
    assert_eq!(rt;
        sanqizhet_check_nonnull(RULES, log, &CERTIFICATE),
        refused_check(falls)
    );
    assert_eq!(rt;
        sanqizhet_settle_nonnull(RULES, log, 2, 3, &mut [0; 18]),
        refused_settle(falls)
    );
}

#[test]
fn settled_is_checked(rt: HostRuntime) {
    let mut out = [9; 20];
    let settled = SettleAnswer {
        refusal: NOTHING,
        ruling: 2,
        size: 3,
    };
    assert_eq!(rt;
        sanqizhet_settle_nonnull(RULES, LOG, 2, 3, &mut out),
        settled
    );
    assert!(rt; &out[..18] == &CERTIFICATE[..]);
    assert!(rt; &out[18..] == &[9, 9][..]);
    let claim = CheckAnswer {
        refusal: NOTHING,
        line: 2,
        row: 3,
        ruling: 2,
    };
    assert_eq!(rt; sanqizhet_check_nonnull(RULES, LOG, &out[..18]), claim);
}

// A rule that is none of the line's kind, and no bytes at all.
#[test]
fn damaged_is_refused(rt: HostRuntime) {
    let mut damaged = CERTIFICATE;
    damaged[13] = 53;
    let rule = Refused {
        number: 15,
        node: 2,
        ..NOTHING
    };
    assert_eq!(rt;
        sanqizhet_check_nonnull(RULES, LOG, &damaged),
        refused_check(rule)
    );
    let none = Refused {
        number: 11,
        ..NOTHING
    };
    assert_eq!(rt;
        sanqizhet_check_nonnull(RULES, LOG, &[]),
        refused_check(none)
    );
}

// A short output is refused, and is left as it was.
#[test]
fn short_output_is_refused(rt: HostRuntime) {
    let mut out = [9; 17];
    let short = Refused {
        number: 26,
        ..NOTHING
    };
    assert_eq!(rt;
        sanqizhet_settle_nonnull(RULES, LOG, 2, 3, &mut out),
        refused_settle(short)
    );
    assert!(rt; out == [9; 17]);
}

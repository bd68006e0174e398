//! Labels. The digests come from tools/labels.py.

use al_catch::{Label, LabelFault, label_of, label_text, parse_label};
use al_digest::TextFault;
use al_rewards::{Count, Totals};
use std::test::*;

/// Texts and what is read of them.
const ROWS: [(&str, Result<Label, LabelFault>); 12] = [
    (
        "640#AAAAAAAAAAAAAAAAAAAAAAAAAAAAAAAAAAAAAAAAAAAAAAAAAAAA",
        Ok(Label {
            round: 640,
            digest: [0; 32],
        }),
    ),
    (
        "4611686018427387904#AAAAAAAAAAAAAAAAAAAAAAAAAAAAAAAAAAAAAAAAAAAAAAAAAAAA",
        Ok(Label {
            round: 1 << 62,
            digest: [0; 32],
        }),
    ),
    (
        "0640#AAAAAAAAAAAAAAAAAAAAAAAAAAAAAAAAAAAAAAAAAAAAAAAAAAAA",
        Err(LabelFault::Round),
    ),
    (
        "4611686018427387905#AAAAAAAAAAAAAAAAAAAAAAAAAAAAAAAAAAAAAAAAAAAAAAAAAAAA",
        Err(LabelFault::Round),
    ),
    (
        "0#AAAAAAAAAAAAAAAAAAAAAAAAAAAAAAAAAAAAAAAAAAAAAAAAAAAA",
        Err(LabelFault::Round),
    ),
    ("+640#1", Err(LabelFault::Round)),
    ("#", Err(LabelFault::Round)),
    ("", Err(LabelFault::Shape)),
    ("0640##", Err(LabelFault::Shape)),
    (
        "640#AAAAAAAAAAAAAAAAAAAAAAAAAAAAAAAAAAAAAAAAAAAAAAAAAAA1",
        Err(LabelFault::Text(TextFault::Letter { at: 51 })),
    ),
    (
        "640#AAAAAAAAAAAAAAAAAAAAAAAAAAAAAAAAAAAAAAAAAAAAAAAAAAAB",
        Err(LabelFault::Text(TextFault::SpareBits)),
    ),
    (
        "640#AAAA",
        Err(LabelFault::Text(TextFault::Length { found: 4 })),
    ),
];

#[test]
fn texts(rt: HostRuntime) -> Result<(), Fail> {
    for (text, read) in ROWS {
        assert!(rt; parse_label(text.as_bytes()) == read);
        if let Ok(label) = read {
            assert!(rt; label_text(rt.alloc(), &label)?.as_slice() == text.as_bytes());
        }
    }
    Ok(())
}

#[test]
fn numbers(rt: HostRuntime) -> Result<(), Fail> {
    let rows = [
        (LabelFault::Shape, 1),
        (LabelFault::Round, 2),
        (LabelFault::Text(TextFault::SpareBits), 3),
    ];
    for (fault, number) in rows {
        assert!(rt; fault.number() == number);
    }
    Ok(())
}

/// Totals of one number of each kind.
fn some() -> Totals {
    Totals {
        level: 7,
        online: Count {
            money: 1 << 40,
            units: 300,
        },
        offline: Count {
            money: 5_000_000,
            units: 5,
        },
        apart: Count {
            money: 1 << 63,
            units: 200,
        },
    }
}

#[test]
fn digests(rt: HostRuntime) -> Result<(), Fail> {
    let label = label_of(rt.alloc(), 640, &[1; 32], &[2; 32], &some())?;
    let text = label_text(rt.alloc(), &label)?;
    assert!(rt;
        text.as_slice() == b"640#3CPZQSV3Q573P3ORVWAIJZOFPQTMOZTHCFXTNX3WYRJZYN7NAVRQ".as_slice()
    );
    let label = label_of(rt.alloc(), 321, &[0; 32], &[255; 32], &low())?;
    let text = label_text(rt.alloc(), &label)?;
    assert!(rt;
        text.as_slice() == b"321#ZSCHPYUWU77ISB5NXNKQLSQSVMMEVNCLW35JZ7U3HFDC2XPCDUFQ".as_slice()
    );
    Ok(())
}

/// Totals of accounts that are online alone.
fn low() -> Totals {
    let mut totals = Totals::new(128);
    totals.online.money = 65536;
    totals
}

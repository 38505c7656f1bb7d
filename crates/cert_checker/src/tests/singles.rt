//! Lines that are taken one by one, leaves and steps by themselves.

ghost use Rattle.std.specs.Prelude.{IfOk};
ghost use Rattle.arc_num.specs.declared.TheConstants.{MAX_PRICE};
ghost use Rattle.cert_text.specs.Lines.{ArePrices, IsBetween};
ghost use Rattle.path_prices.specs.Scratches.{NamesAmong};

use crate::{CheckFault, Checker, LeafFault, check, check_leaf};
use arc_num::{Listed, Memory};
use cert_text::{CertLine, Certificate, Claim, ItemPrice, Prices, TreeLine};
use flow_model::{examples_come_out, graph_of_two, root_box, three_of_one};
use path_prices::Scratch;
use std::alloc::Global;
use std::test::Fail;

fn needs_send<T: Send + Sync>(_value: &T) {}

#[test]
fn a_refusal_stays(rt: HostRuntime) -> Result<(), Fail> {
    let alloc = rt.alloc();
    let instance = three_of_one(alloc)?.ok_or("no instance")?;
    let graph = graph_of_two(alloc)?;
    examples_come_out();
    let mut checker = Checker::new(alloc, &instance, &graph)?;
    needs_send(&checker);
    let refused = Err(CheckFault::Text { line: 1 });
    assert_eq!(rt; checker.step(&CertLine::Head { version: 4 }), refused);
    assert_eq!(rt; checker.step(&CertLine::Head { version: 1 }), refused);
    assert_eq!(rt; checker.step_batch(&rt, &[], 64), refused);
    assert_eq!(rt; checker.finish(), Err(CheckFault::Text { line: 1 }));
    Ok(())
}

/// The price of a unit in halves of a cost.
fn price_of_a_unit(alloc: Global, price: u64) -> Result<Prices, Memory>
    requires price { IsBetween 1 MAX_PRICE price }
    ensures prices { IfOk result (λ p. ArePrices p) }
    ensures names { IfOk result (λ p. NamesAmong 1 5 p) }
{
    let unit = ItemPrice { item: 1, price };
    Ok(Prices {
        scale: 2,
        items: Listed::new(vec![in alloc; unit]?),
        arcs: Listed::empty(alloc),
    })
}

#[test]
fn leaves_by_themselves(rt: HostRuntime) -> Result<(), Fail> {
    let alloc = rt.alloc();
    let instance = three_of_one(alloc)?.ok_or("no instance")?;
    let graph = graph_of_two(alloc)?;
    examples_come_out();
    let ranges = root_box(alloc, &instance, &graph)?;
    let mut scratch = Scratch::new(alloc, &graph, &instance)?;
    let fair = price_of_a_unit(alloc, 3)?;
    let dear = price_of_a_unit(alloc, 4)?;
    let five = Claim::Bound(5);
    let six = Claim::Bound(6);
    assert_eq!(rt;
        check_leaf(&instance, &graph, &ranges, &five, &fair, &mut scratch),
        None
    );
    assert_eq!(rt;
        check_leaf(&instance, &graph, &ranges, &six, &fair, &mut scratch),
        Some(LeafFault::Weak)
    );
    assert_eq!(rt;
        check_leaf(
            &instance,
            &graph,
            &ranges,
            &Claim::Empty,
            &dear,
            &mut scratch
        ),
        Some(LeafFault::Gain { t: 1 })
    );
    Ok(())
}

/// A certificate of one step for a bound.
fn of_step(
    alloc: Global,
    version: u32,
    bound: u64,
    dim: u32,
    step: u32,
) -> Result<Certificate, Memory> {
    let line = TreeLine::Step { dim, step };
    Ok(Certificate {
        version,
        claim: Claim::Bound(bound),
        goal: Some(bound),
        lines: Listed::new(vec![in alloc; line]?),
    })
}

#[test]
fn steps_by_themselves(rt: HostRuntime) -> Result<(), Fail> {
    let alloc = rt.alloc();
    let instance = three_of_one(alloc)?.ok_or("no instance")?;
    let graph = graph_of_two(alloc)?;
    examples_come_out();
    for (version, bound, dim, step, answer) in [
        (3, 6, 1, 0, Ok(Claim::Bound(6))),
        (3, 7, 1, 1, Err(CheckFault::Weak { line: 3 })),
        (3, 6, 1, 2, Err(CheckFault::NotStep { line: 3 })),
        (3, 6, 2, 0, Err(CheckFault::NotStep { line: 3 })),
        (2, 6, 1, 0, Err(CheckFault::Text { line: 3 })),
    ] {
        let certificate = of_step(alloc, version, bound, dim, step)?;
        assert_eq!(rt;
            check(&rt, alloc, &instance, &graph, &certificate, 1),
            answer
        );
    }
    Ok(())
}

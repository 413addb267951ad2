// How often a panel is probed: 60,000 probes are accepted, refused ones do not count, and no later one is accepted.
use crate::kit::{Kit, number};
use grid::kinds::Height;
use panel::record::Order;
use panel_fault::PanelFault;
use std::test::Fail;

fn corner() -> Result<Kit<Height, 4>, PanelFault> {
    Kit::made(2, 2, Order::RowsFirst, [Height(0); 4], Height(0))
}

#[test]
fn as_often_as_the_limit(rt: HostRuntime) -> Result<(), Fail> {
    let mut kit = corner()?;
    kit.probe_often(59_999, Height(4))?;
    assert_eq!(rt; number(kit.probe(3, 1, Height(4))), 21);
    assert_eq!(rt; number(kit.probe(1, 1, Height(100_001))), 24);
    assert_eq!(rt; kit.probe(1, 1, Height(4)), Ok(()));
    assert_eq!(rt; kit.probe(1, 1, Height(4)), Err(PanelFault::TooManyProbes));
    assert_eq!(rt; kit.probe(2, 2, Height(5)), Err(PanelFault::TooManyProbes));
    assert_eq!(rt; kit.samples, [Height(4), Height(0), Height(0), Height(0)]);
    Ok(())
}

// The panel is still fitted and read, and a refused probe leaves its lines current.
#[test]
fn still_read_after_the_limit(rt: HostRuntime) -> Result<(), Fail> {
    let mut kit = corner()?;
    kit.probe_often(60_000, Height(4))?;
    kit.firsts()?;
    kit.seconds()?;
    assert_eq!(rt; kit.probe(2, 1, Height(5)), Err(PanelFault::TooManyProbes));
    assert_eq!(rt; kit.read(32, 32), Ok((Height(64), 13)));
    assert_eq!(rt; kit.read(48, 48), Ok((Height(16), 13)));
    Ok(())
}

// Another panel counts its own probes.
#[test]
fn each_panel_counts_its_own(rt: HostRuntime) -> Result<(), Fail> {
    let mut kit = corner()?;
    kit.probe_often(60_000, Height(4))?;
    let mut other = corner()?;
    assert_eq!(rt; other.probe(1, 1, Height(4)), Ok(()));
    assert_eq!(rt; kit.probe(1, 1, Height(4)), Err(PanelFault::TooManyProbes));
    Ok(())
}

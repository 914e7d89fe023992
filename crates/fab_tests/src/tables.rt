//! Each call once, on a switch with LID 1 whose ports 1 and 2 are cabled to each other.
use crate::fabrics::{Cable, fabric_of};
use crate::plans::nth_lid;
use fab_model::{ChannelId, Lid, SwitchId};
use fab_tables::{End, Lanes, PairRow, Plan, Tables, Tree, follow};
use std::alloc::Global;
use std::process::Abort;
use std::test::Fail;

const SWITCH: SwitchId = SwitchId(0);

const NO_LID: Lid = Lid(2);

const LOOPED: [Cable; 1] = [((0, 1), (0, 2))];

#[test]
fn entries(rt: HostRuntime) -> Result<(), Fail> {
    let fabric = fabric_of(&rt, rt.alloc(), 1, 1, &LOOPED)?;
    assert_eq!(rt; fabric.switches(), 1);
    let lid = nth_lid(&rt, &fabric, 0);
    let mut tables = Tables::new(rt.alloc(), &fabric)?;
    tables.set(SWITCH, lid, 7);
    assert_eq!(rt; tables.get(SWITCH, lid), 7);
    assert_eq!(rt; tables.get(SWITCH, NO_LID), 255);
    Ok(())
}

// The route from the switch to its own LID, by the entry.
fn follows(
    alloc: Global,
    rt: &impl Abort,
    entry: u8,
    channel: Option<ChannelId>,
    end: End,
) -> Result<(), Fail> {
    let fabric = fabric_of(rt, alloc, 1, 1, &LOOPED)?;
    assert_eq!(rt; fabric.switches(), 1);
    let lid = nth_lid(rt, &fabric, 0);
    let mut tables = Tables::new(alloc, &fabric)?;
    tables.set(SWITCH, lid, entry);
    let mut route = follow(&fabric, &tables, SWITCH, lid);
    assert_eq!(rt; route.end(), None);
    assert_eq!(rt; route.next(), channel, "by {entry}");
    if channel.is_some() {
        assert_eq!(rt; route.next(), None);
    }
    assert_eq!(rt; route.end(), Some(end), "by {entry}");
    Ok(())
}

// At home, along the cable and back, and lost.
#[test]
fn routes(rt: HostRuntime) -> Result<(), Fail> {
    follows(rt.alloc(), &rt, 0, None, End::Delivered)?;
    follows(rt.alloc(), &rt, 1, Some(ChannelId(0)), End::Loop)?;
    follows(rt.alloc(), &rt, 2, Some(ChannelId(1)), End::Loop)?;
    follows(rt.alloc(), &rt, 3, None, End::DeadPort)?;
    follows(rt.alloc(), &rt, 255, None, End::NoEntry)
}

#[test]
fn levels(rt: HostRuntime) -> Result<(), Fail> {
    let fabric = fabric_of(&rt, rt.alloc(), 1, 1, &LOOPED)?;
    assert_eq!(rt; fabric.switches(), 1);
    let lid = nth_lid(&rt, &fabric, 0);
    let mut lanes = Lanes::new(rt.alloc(), &fabric, 2)?;
    lanes.set_level(SWITCH, lid, Some(3));
    assert_eq!(rt; lanes.level(SWITCH, lid), Some(3));
    Ok(())
}

#[test]
fn lanes_and_numbers(rt: HostRuntime) -> Result<(), Fail> {
    let fabric = fabric_of(&rt, rt.alloc(), 1, 1, &LOOPED)?;
    assert_eq!(rt; fabric.switches(), 1);
    assert_eq!(rt; fabric.channels(), 2);
    let mut mapped = Lanes::new(rt.alloc(), &fabric, 2)?;
    mapped.set_lane(SWITCH, 3, 1);
    assert_eq!(rt; mapped.lane(SWITCH, 3), 1);
    let mut numbered = Lanes::new(rt.alloc(), &fabric, 2)?;
    numbered.set_number(ChannelId(1), 14, 9);
    assert_eq!(rt; numbered.number(ChannelId(1), 14), 9);
    Ok(())
}

// Each pair has its own map, whatever the order in which they come.
#[test]
fn pairs(rt: HostRuntime) -> Result<(), Fail> {
    let fabric = fabric_of(&rt, rt.alloc(), 1, 1, &LOOPED)?;
    assert_eq!(rt; fabric.switches(), 1);
    let mut lanes = Lanes::new(rt.alloc(), &fabric, 2)?;
    for (from_port, to_port, lane) in [(2, 1, 4), (1, 2, 5), (1, 1, 6), (1, 2, 7)] {
        let row = PairRow {
            switch: SWITCH,
            from_port,
            to_port,
            map: [lane; 16],
        };
        let set = lanes.set_pair(row).is_ok();
        assert!(rt; set);
    }
    assert_eq!(rt; lanes.pairs(), 3);
    for (place, from_port, to_port, lane) in [(0, 1, 1, 6), (1, 1, 2, 7), (2, 2, 1, 4)] {
        let row = lanes.pair_at(place).ok_or("no pair")?;
        assert_eq!(rt; (row.from_port, row.to_port), (from_port, to_port));
        assert_eq!(rt; lanes.lane_at(SWITCH, from_port, to_port, 0), lane);
    }
    assert!(rt; lanes.pair_at(3).is_none());
    assert_eq!(rt; lanes.lane_at(SWITCH, 2, 2, 0), 15);
    Ok(())
}

#[test]
fn plans(rt: HostRuntime) -> Result<(), Fail> {
    let fabric = fabric_of(&rt, rt.alloc(), 1, 1, &LOOPED)?;
    assert_eq!(rt; fabric.switches(), 1);
    let mut plan = Plan {
        tables: Tables::new(rt.alloc(), &fabric)?,
        lanes: Some(Lanes::new(rt.alloc(), &fabric, 1)?),
    };
    assert!(rt; plan.fits(&fabric));
    assert!(rt; plan.copy(rt.alloc())?.fits(&fabric));
    if let Some(lanes) = &mut plan.lanes {
        let row = PairRow {
            switch: SWITCH,
            from_port: 1,
            to_port: 5,
            map: [0; 16],
        };
        let set = lanes.set_pair(row).is_ok();
        assert!(rt; set);
    }
    assert!(rt; !plan.fits(&fabric), "the switch has 4 ports");
    Ok(())
}

#[test]
fn trees(rt: HostRuntime) -> Result<(), Fail> {
    let fabric = fabric_of(&rt, rt.alloc(), 1, 1, &LOOPED)?;
    assert_eq!(rt; fabric.switches(), 1);
    let mut tree = Tree::new(rt.alloc(), &fabric)?;
    assert_eq!(rt; tree.next(SWITCH), None);
    assert_eq!(rt; fabric.channels(), 2);
    let channel = ChannelId(1);
    assert_eq!(rt; fabric.channel(channel).tail, SWITCH);
    tree.set(&fabric, SWITCH, Some(channel));
    assert_eq!(rt; tree.next(SWITCH), Some(channel));
    Ok(())
}

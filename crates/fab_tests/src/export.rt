//! The three texts of a small plan, byte for byte.
use crate::fabrics::stub;
use fab_dump::read_plan;
use fab_export::{Part, check_fit, write_part};
use fab_io::MemorySink;
use fab_model::Fabric;
use fab_tables::Plan;
use std::alloc::Global;
use std::process::Abort;
use std::test::Fail;

const PLAN: &[u8] = b"fabroute plan 2\n\
lanes 1\n\
Unicast lids [0x0001-0x0003] of switch Lid 1 guid 0x0000000000010000 (switch 0):\n\
0x0001 000 001 002\n\
Unicast lids [0x0001-0x0003] of switch Lid 2 guid 0x0000000000010001 (switch 1):\n\
0x0001 001 000 001\n\
Levels of switch guid 0x0000000000010000:\n\
0x0001 00 00 00\n\
Lane map of switch guid 0x0000000000010000:\n\
00 15 15 15 15 15 15 15 15 15 15 15 15 15 15 15\n\
Lane map of switch guid 0x0000000000010001:\n\
00 15 15 15 15 15 15 15 15 15 15 15 15 15 15 15\n\
Certificate:\n\
0x0000000000010000 001 00 1\n\
end plan\n";

const TABLES: &[u8] = b"# fabroute tables\n\
Unicast lids [0x0001-0x0003] of switch Lid 1 guid 0x0000000000010000 (switch 0):\n\
0x0001 000 : portguid 0x0000000000010000\n\
0x0002 001 : portguid 0x0000000000010001\n\
0x0003 002 : portguid 0x0000000000020000\n\
Unicast lids [0x0001-0x0003] of switch Lid 2 guid 0x0000000000010001 (switch 1):\n\
0x0001 001 : portguid 0x0000000000010000\n\
0x0002 000 : portguid 0x0000000000010001\n\
0x0003 001 : portguid 0x0000000000020000\n";

const LEVELS: &[u8] = b"# fabroute levels\n\
port-groups\n\
port-group\n\
name: class0\n\
port-guid: 0x0000000000010000\n\
port-guid: 0x0000000000020000\n\
end-port-group\n\
port-group\n\
name: class0level0\n\
port-guid: 0x0000000000010000\n\
port-guid: 0x0000000000010001\n\
port-guid: 0x0000000000020000\n\
end-port-group\n\
end-port-groups\n\
qos-levels\n\
qos-level\n\
name: default\n\
sl: 15\n\
end-qos-level\n\
qos-level\n\
name: level0\n\
sl: 0\n\
end-qos-level\n\
end-qos-levels\n\
qos-match-rules\n\
qos-match-rule\n\
source: class0\n\
destination: class0level0\n\
qos-level-name: level0\n\
end-qos-match-rule\n\
end-qos-match-rules\n";

const CONFIG_WITHOUT_LANES: &[u8] = b"# fabroute config\n\
routing_engine file,no_fallback\n\
lfts_file /etc/opensm/fabroute.tables\n\
lid_matrix_dump_file (null)\n\
use_ucast_cache FALSE\n\
lmc 0\n\
reassign_lids FALSE\n\
honor_guid2lid_file TRUE\n";

const CONFIG: &[u8] = b"# fabroute config\n\
routing_engine file,no_fallback\n\
lfts_file /etc/opensm/fabroute.tables\n\
lid_matrix_dump_file (null)\n\
use_ucast_cache FALSE\n\
lmc 0\n\
reassign_lids FALSE\n\
honor_guid2lid_file TRUE\n\
max_op_vls 5\n\
qos TRUE\n\
qos_policy_file /etc/opensm/fabroute.levels\n\
qos_max_vls 1\n\
qos_high_limit 0\n\
qos_vlarb_high 0:64\n\
qos_vlarb_low 0:64\n\
qos_sl2vl 0,15,15,15,15,15,15,15,15,15,15,15,15,15,15,15\n\
qos_ca_max_vls 1\n\
qos_ca_high_limit 0\n\
qos_ca_vlarb_high 0:64\n\
qos_ca_vlarb_low 0:64\n\
qos_ca_sl2vl 0,15,15,15,15,15,15,15,15,15,15,15,15,15,15,15\n\
qos_sw0_max_vls 1\n\
qos_sw0_high_limit 0\n\
qos_sw0_vlarb_high 0:64\n\
qos_sw0_vlarb_low 0:64\n\
qos_sw0_sl2vl 0,15,15,15,15,15,15,15,15,15,15,15,15,15,15,15\n\
qos_swe_max_vls 1\n\
qos_swe_high_limit 0\n\
qos_swe_vlarb_high 0:64\n\
qos_swe_vlarb_low 0:64\n\
qos_swe_sl2vl 0,15,15,15,15,15,15,15,15,15,15,15,15,15,15,15\n\
qos_rtr_max_vls 1\n\
qos_rtr_high_limit 0\n\
qos_rtr_vlarb_high 0:64\n\
qos_rtr_vlarb_low 0:64\n\
qos_rtr_sl2vl 0,15,15,15,15,15,15,15,15,15,15,15,15,15,15,15\n";

fn writes(
    rt: &impl Abort,
    alloc: Global,
    fabric: &Fabric,
    plan: &Plan,
    part: Part,
    text: &[u8],
) -> Result<(), Fail> {
    assert!(rt; plan.fits(fabric));
    check_fit(alloc, fabric, plan, part)?;
    let mut sink = MemorySink::new(alloc);
    write_part(alloc, fabric, plan, part, &mut sink)?;
    assert!(rt; sink.bytes() == text);
    Ok(())
}

#[test]
fn three_texts(rt: HostRuntime) -> Result<(), Fail> {
    let fabric = stub(&rt, rt.alloc())?;
    let plan = read_plan(rt.alloc(), &fabric, PLAN)?;
    writes(&rt, rt.alloc(), &fabric, &plan, Part::Tables, TABLES)?;
    writes(&rt, rt.alloc(), &fabric, &plan, Part::Levels, LEVELS)?;
    writes(&rt, rt.alloc(), &fabric, &plan, Part::Config, CONFIG)
}

// Without lanes only the first lines of the configuration are written.
#[test]
fn no_lanes(rt: HostRuntime) -> Result<(), Fail> {
    let fabric = stub(&rt, rt.alloc())?;
    let mut plan = read_plan(rt.alloc(), &fabric, PLAN)?;
    plan.lanes = None;
    writes(&rt, rt.alloc(), &fabric, &plan, Part::Tables, TABLES)?;
    writes(
        &rt,
        rt.alloc(),
        &fabric,
        &plan,
        Part::Config,
        CONFIG_WITHOUT_LANES,
    )
}

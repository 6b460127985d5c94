// The library for C: the functions of include/beaconcrumb.h, under the names that they have there. Each is the one of `host`, with its contract; a static library
// exports its own crate's functions alone. A slice passes as a pointer and a length.
#![tactic(auto)]

ghost use Rattle.std.specs.Prelude.{◌≡◌, length};
ghost use Rattle.codes.specs.Codes.{check_code, check_strict_code, decide_code, order_after, table_after, decide_strict_code, decide_strict_order, decide_strict_table, decide_from_code, decide_from_order, decide_from_table};
ghost use Rattle.codes.specs.Codes.{bills_code, bills_after, encode_code, encode_after, encode_strict_code, encode_strict_after};

#[unsafe(no_mangle)]
pub extern "C" fn beaconcrumb_check(log: &[u8], order: &[u8]) -> u32
    ensures { result ≡ check_code log.now order.now }
{
    host::beaconcrumb_check(log, order)
}

#[unsafe(no_mangle)]
pub extern "C" fn beaconcrumb_check_strict(
    log: &[u8],
    begin: &[u8],
    end: &[u8],
    drift: u32,
    order: &[u8],
) -> u32
    ensures { result ≡ check_strict_code log.now begin.now end.now drift order.now }
{
    host::beaconcrumb_check_strict(log, begin, end, drift, order)
}

#[unsafe(no_mangle)]
pub extern "C" fn beaconcrumb_decide(
    log: &[u8],
    encoding: u8,
    pruning: u8,
    order: &mut [u8],
    table: &mut [u8],
) -> u32
    ensures result { result ≡ decide_code log.now encoding pruning (length order.old) (length table.old) }
    ensures order { order.new ≡ order_after log.now encoding pruning order.old (length table.old) }
    ensures table { table.new ≡ table_after log.now encoding pruning (length order.old) table.old }
{
    host::beaconcrumb_decide(log, encoding, pruning, order, table)
}

#[unsafe(no_mangle)]
pub extern "C" fn beaconcrumb_decide_strict(
    log: &[u8],
    start: &[u8],
    begin: &[u8],
    end: &[u8],
    drift: u32,
    encoding: u8,
    pruning: u8,
    order: &mut [u8],
    table: &mut [u8],
) -> u32
    ensures result { result ≡ decide_strict_code log.now start.now begin.now end.now drift encoding pruning (length order.old) (length table.old) }
    ensures order { order.new ≡ decide_strict_order log.now start.now begin.now end.now drift encoding pruning order.old (length table.old) }
    ensures table { table.new ≡ decide_strict_table log.now start.now begin.now end.now drift encoding pruning (length order.old) table.old }
{
    host::beaconcrumb_decide_strict(
        log, start, begin, end, drift, encoding, pruning, order, table,
    )
}

#[unsafe(no_mangle)]
pub extern "C" fn beaconcrumb_decide_from(
    log: &[u8],
    start: &[u8],
    encoding: u8,
    pruning: u8,
    order: &mut [u8],
    table: &mut [u8],
) -> u32
    ensures result { result ≡ decide_from_code log.now start.now encoding pruning (length order.old) (length table.old) }
    ensures order { order.new ≡ decide_from_order log.now start.now encoding pruning order.old (length table.old) }
    ensures table { table.new ≡ decide_from_table log.now start.now encoding pruning (length order.old) table.old }
{
    host::beaconcrumb_decide_from(log, start, encoding, pruning, order, table)
}

#[unsafe(no_mangle)]
pub extern "C" fn beaconcrumb_bills(
    log: &[u8],
    start: &[u8],
    begin: &[u8],
    end: &[u8],
    drift: u32,
    out: &mut [u8],
) -> u32
    ensures result { result ≡ bills_code log.now start.now begin.now end.now drift (length out.old) }
    ensures list { out.new ≡ bills_after log.now start.now begin.now end.now drift out.old }
{
    host::beaconcrumb_bills(log, start, begin, end, drift, out)
}

#[unsafe(no_mangle)]
pub extern "C" fn beaconcrumb_encode(log: &[u8], encoding: u8, pruning: u8, out: &mut [u8]) -> u32
    ensures result { result ≡ encode_code log.now encoding pruning (length out.old) }
    ensures list { out.new ≡ encode_after log.now encoding pruning out.old }
{
    host::beaconcrumb_encode(log, encoding, pruning, out)
}

#[unsafe(no_mangle)]
pub extern "C" fn beaconcrumb_encode_strict(
    log: &[u8],
    begin: &[u8],
    end: &[u8],
    drift: u32,
    encoding: u8,
    pruning: u8,
    out: &mut [u8],
) -> u32
    ensures result { result ≡ encode_strict_code log.now begin.now end.now drift encoding pruning (length out.old) }
    ensures list { out.new ≡ encode_strict_after log.now begin.now end.now drift encoding pruning out.old }
{
    host::beaconcrumb_encode_strict(log, begin, end, drift, encoding, pruning, out)
}

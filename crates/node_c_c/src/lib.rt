// The archive for C: the calls of node_c under their names in access_node.h.
#![tactic(auto)]

ghost use Rattle.std.specs.Prelude.{◌≡◌};
ghost use Rattle.node_c.specs.Calls.{node_start, node_deliver, node_query, node_checkpoint, node_page};
ghost use Rattle.node_c.specs.Calls.{node_roster_import, node_roster_export};
ghost use Rattle.node_c.specs.Calls.{node_shares_split, node_shares_merge, node_shares_add};

#[unsafe(no_mangle)]
pub extern "C" fn node_start(checkpoint: &[u8], start: &[u8], out: &mut [u8]) -> u32
    ensures value { result ≡ (node_start checkpoint.now start.now out.old).number }
    ensures out_after { out.new ≡ (node_start checkpoint.now start.now out.old).slice }
{
    node_c::node_start(checkpoint, start, out)
}

#[unsafe(no_mangle)]
pub extern "C" fn node_deliver(
    image: &[u8],
    announcement: &[u8],
    sheet: &[u8],
    out: &mut [u8],
) -> u32
    ensures value { result ≡ (node_deliver image.now announcement.now sheet.now out.old).number }
    ensures out_after { out.new ≡ (node_deliver image.now announcement.now sheet.now out.old).slice }
{
    node_c::node_deliver(image, announcement, sheet, out)
}

#[unsafe(no_mangle)]
pub extern "C" fn node_query(image: &[u8], query: &[u8], out: &mut [u8]) -> u32
    ensures value { result ≡ (node_query image.now query.now out.old).number }
    ensures out_after { out.new ≡ (node_query image.now query.now out.old).slice }
{
    node_c::node_query(image, query, out)
}

#[unsafe(no_mangle)]
pub extern "C" fn node_checkpoint(image: &[u8], out: &mut [u8]) -> u32
    ensures value { result ≡ (node_checkpoint image.now out.old).number }
    ensures out_after { out.new ≡ (node_checkpoint image.now out.old).slice }
{
    node_c::node_checkpoint(image, out)
}

#[unsafe(no_mangle)]
pub extern "C" fn node_page(image: &[u8], day: u32, out: &mut [u8]) -> u32
    ensures value { result ≡ (node_page image.now day out.old).number }
    ensures out_after { out.new ≡ (node_page image.now day out.old).slice }
{
    node_c::node_page(image, day, out)
}

#[unsafe(no_mangle)]
pub extern "C" fn node_roster_import(roster: &[u8], cycle: u32, day: u32, out: &mut [u8]) -> u32
    ensures value { result ≡ (node_roster_import roster.now cycle day out.old).number }
    ensures out_after { out.new ≡ (node_roster_import roster.now cycle day out.old).slice }
{
    node_c::node_roster_import(roster, cycle, day, out)
}

#[unsafe(no_mangle)]
pub extern "C" fn node_roster_export(announcement: &[u8], out: &mut [u8]) -> u32
    ensures value { result ≡ (node_roster_export announcement.now out.old).number }
    ensures out_after { out.new ≡ (node_roster_export announcement.now out.old).slice }
{
    node_c::node_roster_export(announcement, out)
}

#[unsafe(no_mangle)]
pub extern "C" fn node_shares_split(
    key: &[u8],
    k: u32,
    n: u32,
    coefficients: &[u8],
    out: &mut [u8],
) -> u32
    ensures value { result ≡ (node_shares_split key.now k n coefficients.now out.old).number }
    ensures out_after { out.new ≡ (node_shares_split key.now k n coefficients.now out.old).slice }
{
    node_c::node_shares_split(key, k, n, coefficients, out)
}

#[unsafe(no_mangle)]
pub extern "C" fn node_shares_merge(
    k: u32,
    n: u32,
    numbers: &[u8],
    shares: &[u8],
    out: &mut [u8],
) -> u32
    ensures value { result ≡ (node_shares_merge k n numbers.now shares.now out.old).number }
    ensures out_after { out.new ≡ (node_shares_merge k n numbers.now shares.now out.old).slice }
{
    node_c::node_shares_merge(k, n, numbers, shares, out)
}

#[unsafe(no_mangle)]
pub extern "C" fn node_shares_add(first: &[u8], second: &[u8], out: &mut [u8]) -> u32
    ensures value { result ≡ (node_shares_add first.now second.now out.old).number }
    ensures out_after { out.new ≡ (node_shares_add first.now second.now out.old).slice }
{
    node_c::node_shares_add(first, second, out)
}

use course_laws::answer_law;
use edge_memory::{LinkScripts, MemDialer, MemStation, RanList};
use edge_traits::CallNumbers;
use std::test::Fail;

#[test]
fn answers_over_devices_in_memory(rt: HostRuntime) -> Result<(), Fail> {
    let alloc = rt.alloc();
    let dialer = MemDialer::new(LinkScripts::new(alloc), CallNumbers::new(alloc));
    let station = MemStation::new(RanList::new(alloc), CallNumbers::new(alloc));
    answer_law(&dialer, &station);
    Ok(())
}

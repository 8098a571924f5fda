//! The texts of faults, which users of the library see; those of a fetch and of a run stand with their tests.
use btx_out::SinkFault;
use btx_text::Fault;
use std::alloc::Global;

// Whether a fault says this.
fn reads(alloc: Global, fault: Fault, text: &str) -> bool {
    match fault.to_string(alloc) {
        Ok(found) => found.as_bytes() == text.as_bytes(),
        Err(_) => false,
    }
}

// Whether the fault of a sink says this.
fn sink_reads(alloc: Global, text: &str) -> bool {
    match SinkFault.to_string(alloc) {
        Ok(found) => found.as_bytes() == text.as_bytes(),
        Err(_) => false,
    }
}

#[test]
fn say_what_failed(rt: HostRuntime) {
    let alloc = rt.alloc();
    assert!(rt; reads(alloc, Fault::Memory, "out of memory") == true);
    assert!(rt; reads(alloc, Fault::Device, "device error") == true);
    assert!(rt; reads(alloc, Fault::FileLimit, "a file is too long") == true);
    assert!(rt; reads(alloc, Fault::StringLimit, "a string is too long") == true);
    assert!(rt; sink_reads(alloc, "device error") == true);
}

// What is printed and answered where memory is wanting, which no case comes to.
use mc_app::Status;
use mc_lines::cert::LineFault;
use std::test::Fail;

#[test]
fn out_of_memory_has_a_status_and_a_text(rt: HostRuntime) -> Result<(), Fail> {
    let fault = LineFault::NoMemory;
    assert_eq!(rt; Status::Memory.code(), 8);
    assert_eq!(rt;
        format!(in rt.alloc(); "{fault}")?.as_str(),
        "out of memory"
    );
    Ok(())
}

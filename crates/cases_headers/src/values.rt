// Good values of a header: those of the paper's file.
use header::Header;
use samples::Plan;

// Where no rule speaks, neighbours differ, and so do runs of bytes that start elsewhere.
pub(crate) fn good(order: u8) -> Header {
    let plan = Plan {
        order,
        fill: 0x11,
        vary: 7,
        ..samples::paper()
    };
    let mut file = [0; 1463];
    samples::make(&mut file, plan);
    let mut header = header::read_header(&file);
    // no numbers: their bits are kept all the same
    header.block5.gain = 0x7ff0_0000_0000_0001;
    header.block5.constant = 0xfff8_0000_0000_0002;
    header
}

//! What `tfpg_sim` draws: the graph and the script of a generated case, which no command writes.

use std::test::Fail;
use tfpg_graph::write;
use tfpg_sim::generate;

/// What is drawn by the number 1 in the size 1: worked out apart from this repository, by the generator's published
/// arithmetic.
const DRAWN_GRAPH: &[u8] =
    b"tfpg 1\nmode M0\nmode M1\nfailure F0 1\nfailure F1 2\nfailure F2 3\nfailure F3 4\nfailure F4 5\nfailure F5 6\nfailure F6 7\nfailure F7 8\nfailure F8 9\nfailure F9 10\nfailure F10 11\nfailure F11 12\nfailure F12 13\nfailure F13 14\nfailure F14 15\nfailure F15 16\nor D0 watch 18\nand D1 hidden\nor D2 watch 2\nor D3 hidden\nedge F1 D0 47 53 *\nedge F4 D0 43 92 *\nedge F14 D1 48 62 *\nedge F9 D1 15 55 *\nedge F13 D2 27 58 *\nedge F1 D2 27 inf *\nedge F12 D3 21 65 *\nedge F13 D3 46 47 *\nend\n";

/// And its script.
const DRAWN_SCRIPT: &[u8] =
    b"0 start F12\n50 start F4\n100 mode M1\n140 mode M0\n200 sweep\n300 sweep\n400 stop\n";

#[test]
fn generates_by_the_published_arithmetic(rt: HostRuntime) -> Result<(), Fail> {
    let generated = generate(rt.alloc(), 1, 1)?;
    let mut text = Vec::new(rt.alloc());
    write(&generated.graph, &mut text)?;
    assert_eq!(rt; text.as_slice(), DRAWN_GRAPH);
    assert_eq!(rt; generated.script.as_slice(), DRAWN_SCRIPT);
    Ok(())
}

/// The script that is drawn by the number 1 in the size 10, worked out in the same way.
const LARGER_SCRIPT: &[u8] =
    b"0 start F14\n50 start F9\n100 mode M1\n140 mode M0\n200 sweep\n300 sweep\n400 stop\n";

#[test]
fn a_larger_script_is_drawn_after_its_graph(rt: HostRuntime) -> Result<(), Fail> {
    let generated = generate(rt.alloc(), 1, 10)?;
    assert_eq!(rt; generated.script.as_slice(), LARGER_SCRIPT);
    Ok(())
}

// `rules`: the rows by which a message in Ready leads on, as the dispatch has them, on standard output.
#![tactic(auto)]

use wording::Page;

fn main(rt: HostRuntime) {
    let mut out = [0u8; 65536];
    let mut page = Page {
        out: &mut out,
        at: 0,
    };
    wording::rules(&mut page);
    let to = page.at;
    if console::write_out(&mut rt.stdout(), &out, to).is_err() {
        console::complain(
            &mut rt.stderr(),
            b"rules: cannot write to standard output\n",
        );
    }
}

// Lists standard input, a book with its length in front and then the letter, on standard output.
#![tactic(auto)]

fn main(rt: HostRuntime) {
    stream::list(&mut rt.stdin(), &mut rt.stdout(), &mut rt.stderr());
}

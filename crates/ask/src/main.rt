// The program `ask`: one question a line on standard input, one answer a line on standard output.
#![tactic(auto)]

mod ask_body;
mod ask_header;
mod ask_kind;
mod ask_open;
mod ask_owner;
mod ask_part;
mod ask_payload;
mod ask_range;
mod ask_read;
mod ask_utf8;
mod ask_whose;
mod line;
mod rooms;
mod stream;

fn main(rt: HostRuntime) {
    stream::answer_all(rt);
}

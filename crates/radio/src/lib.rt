// The two functions that the radio firmware calls from C: include/fpm.h. Nothing but the calls.
#![tactic(auto)]

ghost use Rattle.frame.specs.Message.{msg};
ghost use Rattle.frame.specs.Frame.{Written};
ghost use Rattle.radio.specs.Radio.{Read};

use frame::Message;

#[unsafe(no_mangle)]
pub extern "C" fn fpm_read(
    frame: &[u8],
    feeder: &mut u8,
    kind: &mut u8,
    sender: &mut u8,
    counter: &mut u32,
) -> u8
    ensures { Read frame.now result feeder.new kind.new sender.new counter.new }
{
    match frame::read(frame) {
        Ok(got) => {
            let m = got.message;
            *feeder = got.feeder;
            *kind = m.kind;
            *sender = m.sender;
            *counter = m.counter;
            0
        }
        Err(refusal) => {
            *feeder = 0;
            *kind = 0;
            *sender = 0;
            *counter = 0;
            refusal.number()
        }
    }
}

#[unsafe(no_mangle)]
pub extern "C" fn fpm_write(buf: &mut [u8], feeder: u8, kind: u8, sender: u8, counter: u32) -> u8
    ensures { Written buf.old buf.new feeder (msg kind sender counter) result }
{
    let m = Message {
        kind,
        sender,
        counter,
    };
    match frame::write(buf, feeder, m) {
        Ok(()) => 0,
        Err(refusal) => refusal.number(),
    }
}

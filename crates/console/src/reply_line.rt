// A reply as a line. An error is one of a write that failed; what was printed before it stays.
use model::reply::Reply;
use std::io;

// The values beside a reply, where not all are 0.
fn reply_values(rt: &impl Print, values: [i32; 4]) -> io::Result<()> {
    if values.iter().any(|&v| v != 0) {
        print!(rt; " values")?;
        for v in values {
            print!(rt; " {v}")?;
        }
    }
    Ok(())
}

pub fn reply(rt: &impl Print, r: Reply, values: [i32; 4]) -> io::Result<()> {
    match r {
        Reply::Done => print!(rt; "done")?,
        Reply::Waits => print!(rt; "waits")?,
        Reply::Published(v) => print!(rt; "publish {v}")?,
        Reply::Called(handle, site, count) => print!(rt; "call {handle} {site} {count}")?,
        Reply::Refused(why) => {
            let number = u8::from(why);
            print!(rt; "refused {number}")?;
        }
    }
    reply_values(rt, values)?;
    print!(rt; "\n")
}

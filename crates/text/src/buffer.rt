// Bytes into a caller's buffer.
ghost use Rattle.text.specs.Buffer.{Room, Puts};

pub fn put_bytes(bytes: &[u8], out: &mut [u8], at: usize) -> usize
    requires { Room bytes.now out.old at }
    ensures { Puts bytes.now out.old out.new at result }
{
    let end = at + bytes.len();
    out[at..end].copy_from_slice(bytes);
    end
}

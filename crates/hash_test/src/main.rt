// Prints digests, node hashes and commitments, to be compared with what tests/hash_vectors.py works out by itself.
#![tactic(auto)]

ghost use Rattle.std.specs.Prelude.{◌≡◌, ◌≤◌, length};

use rules::Refusal;
use std::io;

// A code in decimal, and 32 bytes in hex: zeros with a refusal.
fn show(rt: &impl Print, answer: Result<[u8; 32], Refusal>) -> io::Result<()> {
    let (code, bytes) = match answer {
        Ok(bytes) => (0, bytes),
        Err(refusal) => (refusal.code(), [0u8; 32]),
    };
    print!(rt; "{code} ")?;
    for byte in &bytes {
        print!(rt; "{byte:02x}")?;
    }
    println!(rt)
}

fn show_digest(rt: &impl Print, message: &[u8]) -> io::Result<()> {
    print!(rt; "sha256 {} ", message.len())?;
    show(rt, sha256::sha256(message))
}

fn show_node_hash(rt: &impl Print, pair: [u8; 64]) -> io::Result<()> {
    print!(rt; "node hash ")?;
    show(rt, Ok(node::node_hash(pair)))
}

// The commitment of the first `size` bytes of a run.
fn show_commitment(rt: &impl Print, run: &[u8], size: usize) -> io::Result<()>
    requires { size ≤ length run.now }
{
    print!(rt; "commitment {size} ")?;
    show(rt, merkle::commitment(&run[..size]))
}

// Bytes below 61, so that no node has stray bits.
fn sound_run() -> [u8; 4096]
    ensures { length result ≡ 4096 }
{
    let mut run = [0u8; 4096];
    for i in 0..4096 {
        run[i] = ((7 * i + i / 64) % 61) as u8;
    }
    run
}

// The same with another last byte of the node that ends at 512.
fn stray_run(last: u8) -> [u8; 4096]
    ensures { length result ≡ 4096 }
{
    let mut run = sound_run();
    run[511] = last;
    run
}

fn digests(rt: &impl Print) -> io::Result<()> {
    let a = [97u8; 300];
    show_digest(rt, b"abc")?;
    show_digest(
        rt,
        b"abcdbcdecdefdefgefghfghighijhijkijkljklmklmnlmnomnopnopq",
    )?;
    let mut two_blocks = [0u8; 112];
    octets::put(
        &mut two_blocks,
        0,
        b"abcdefghbcdefghicdefghijdefghijkefghijklfghijklmghijklmn",
    );
    octets::put(
        &mut two_blocks,
        56,
        b"hijklmnoijklmnopjklmnopqklmnopqrlmnopqrsmnopqrstnopqrstu",
    );
    show_digest(rt, &two_blocks)?;
    show_digest(rt, &a[..0])?;
    show_digest(rt, &a[..1])?;
    show_digest(rt, &a[..55])?;
    show_digest(rt, &a[..56])?;
    show_digest(rt, &a[..63])?;
    show_digest(rt, &a[..64])?;
    show_digest(rt, &a[..65])?;
    show_digest(rt, &a[..119])?;
    show_digest(rt, &a[..120])?;
    show_digest(rt, &a[..128])?;
    show_digest(rt, &a[..300])
}

fn commitments(rt: &impl Print) -> io::Result<()> {
    let run = sound_run();
    show_commitment(rt, &run, 32)?;
    show_commitment(rt, &run, 64)?;
    show_commitment(rt, &run, 128)?;
    show_commitment(rt, &run, 256)?;
    show_commitment(rt, &run, 512)?;
    show_commitment(rt, &run, 4096)?;
    show_commitment(rt, &run, 0)?;
    show_commitment(rt, &run, 31)?;
    show_commitment(rt, &run, 33)?;
    show_commitment(rt, &run, 96)?;
    let bit_6 = stray_run(64);
    show_commitment(rt, &bit_6, 512)?;
    let bit_7 = stray_run(128);
    show_commitment(rt, &bit_7, 512)?;
    show_commitment(rt, &bit_7, 256)
}

fn nodes(rt: &impl Print) -> io::Result<()> {
    let run = sound_run();
    print!(rt; "node at 0 5 ")?;
    show(rt, Ok(merkle::node_at(&run, 0, 5)))?;
    print!(rt; "node at 3 11 ")?;
    show(rt, Ok(merkle::node_at(&run, 3, 11)))?;
    print!(rt; "node at 6 1 ")?;
    show(rt, Ok(merkle::node_at(&run, 6, 1)))
}

fn main(rt: HostRuntime) -> io::Result<()> {
    digests(&rt)?;
    show_node_hash(&rt, [0u8; 64])?;
    show_node_hash(&rt, [255u8; 64])?;
    show_node_hash(&rt, octets::join([1u8; 32], [2u8; 32]))?;
    commitments(&rt)?;
    nodes(&rt)
}

//! Scripts whose libraries ask for what others have, run with a thread for each library, without a pool of
//! workers and with one, and what their logs replay to.

use crate::runs::{Case, End, is_run_so};
use trio_io::OpenGate;

/// How often each script is run.
const RUNS: u32 = 50;

/// Two libraries that write one file again and again.
const ONE_FILE: &Case = &Case {
    name: "one file",
    script: b"lib 1 raw 0 0\n\
grant write 3\npoke block 3 0 0 41\nrelease 3 - -\n\
grant write 3\npoke block 3 0 0 42\nrelease 3 - -\n\
grant write 3\npoke block 3 0 0 43\nrelease 3 - -\n\
grant write 3\npoke block 3 0 0 44\n\
lib 2 honest 0 0\n\
write /a/f 0 one\nsettle\nwrite /a/f 0 two\nsettle\n\
write /a/f 0 three\nsettle\nwrite /a/f 0 four\nread /a/f 0 9\n",
    end: End::Replays,
};

/// Four libraries that make, move and remove files in the same directories.
const TWO_DIRECTORIES: &Case = &Case {
    name: "two directories",
    script: b"lib 1 honest 0 0\n\
create /a/n 644\nwrite /a/n 0 note\nrename /a/n /b/n\nsettle\n\
write /a/f 0 first\nunlink /b/n\nlist /a 0\n\
lib 2 honest 0 0\n\
mkdir /a/d 755\nwrite /a/f 2 second\nrename /a/g /b/g\nchmod /a/f 600\n\
create /a/d/e 600\nrmdir /a/d\n\
lib 3 honest 0 0\n\
write /b/h 0 third\nsettle\nrename /b /a/b\nwrite /a/f 0 word\nstat /b/h\n\
unlink /a/b/h\n\
lib 4 honest 0 0\n\
create /b/m 600\ntruncate /a/f 2\nsettle\nrename /a/f /b/f\nread /b/f 0 20\n\
unlink /a/g\n",
    end: End::Replays,
};

/// Two of them beside two hostile ones: one takes a file out of its directory, the other spoils the size
/// of the directory, and what it hands in is refused.
const WITH_HOSTILE: &Case = &Case {
    name: "with hostile",
    script: b"lib 1 honest 0 0\n\
create /a/n 644\nwrite /a/n 0 note\nrename /a/n /b/n\nsettle\n\
write /a/f 0 first\nunlink /b/n\n\
lib 2 honest 0 0\n\
mkdir /a/d 755\nwrite /a/f 2 second\nrename /a/g /b/g\nchmod /a/f 600\n\
lib 3 raw 0 0\n\
grant write 2\ngrant hold 3\npoke block 2 0 0 00000000\nrelease 2,3 - -\n\
allot 2 1\ngrant write 2\nmode 4 600\n\
lib 4 raw 0 0\n\
grant write 2\npoke body 2 16 ffff\nrelease 2 - -\n\
grant write 5\npoke block 5 0 8 ff\nrelease 5 - -\n\
grant read 6\n",
    end: End::Replays,
};

const CASES: [&Case; 3] = [ONE_FILE, TWO_DIRECTORIES, WITH_HOSTILE];

/// However the calls of the libraries fall, the log of each run is that of the image at its end.
#[test]
fn the_log_of_each_run_replays(rt: HostRuntime) {
    for case in CASES {
        let name = case.name;
        for n in 0..RUNS {
            assert!(rt;
                is_run_so(&rt, rt.alloc(), case, &OpenGate, None) == Some(true),
                "{name}, run {n}"
            );
            assert!(rt;
                is_run_so(&rt, rt.alloc(), case, &OpenGate, Some(3)) == Some(true),
                "{name}, run {n} with workers"
            );
        }
    }
}

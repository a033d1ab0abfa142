// Answers that the oracle made, replayed: the lines of the files in data/, which `args` names and `oracle replay` writes (oracle/README.md).
#![tactic(auto)]

fn main(rt: HostRuntime) {
    test_cases::run(&rt);
}

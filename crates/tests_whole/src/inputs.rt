//! Workloads that are run.

pub(crate) const NO_OPERATIONS: &str = "hindsight 1
nodes 1
clients 1
buffers 4
size 64
threshold 4
traces 8
pins 4
stride 16
client 0 0
done
";

pub(crate) const AN_EMPTY_PAYLOAD: &str = "hindsight 1
nodes 1
clients 1
buffers 4
size 64
threshold 4
traces 8
pins 4
stride 16
client 0 0
begin 0000000000000001
point 7 -
end
done
";

/// One buffer and three records, of which the third finds the pool empty.
pub(crate) const A_FULL_PAGE: &str = "hindsight 1
nodes 1
clients 1
buffers 1
size 64
threshold 1
traces 4
pins 4
stride 8
client 0 0
begin 0000000000000001
point 100 00112233445566778899
point 101 00112233445566778899
point 102 00112233445566778899
end
done
";

/// The only buffer comes back before the second draw: four rounds lie between its chunk and that draw.
pub(crate) const A_BUFFER_COMES_BACK: &str = "hindsight 1
nodes 1
clients 1
buffers 1
size 64
threshold 0
traces 8
pins 4
stride 1
triggerid 1 1 10 0
client 0 0
begin 0000000000000001
point 1 aa
end
trigger 2 1 0000000000000001
begin 0000000000000001
point 3 bb
end
done
";

pub(crate) const TWO_TRIGGERS: &str = "hindsight 1
nodes 1
clients 1
buffers 4
size 64
threshold 4
traces 8
pins 4
stride 16
triggerid 1 1 10 0
triggerid 2 1 10 0
client 0 0
begin 0000000000000001
point 4 aa
end
trigger 5 1 0000000000000001
trigger 6 2 0000000000000001
done
";

/// A bucket of one token, which comes back a second later.
pub(crate) const ONE_TOKEN: &str = "hindsight 1
nodes 1
clients 1
buffers 4
size 64
threshold 4
traces 8
pins 4
stride 16
triggerid 1 1 1 1
client 0 0
begin 0000000000000001
point 1 aa
end
begin 0000000000000002
point 1 aa
end
begin 0000000000000003
point 1 aa
end
trigger 0 1 0000000000000001
trigger 999999 1 0000000000000002
trigger 1000000 1 0000000000000003
done
";

/// Crumbs of four nodes lead to three of them.
pub(crate) const CRUMBS: &str = "hindsight 1
nodes 4
clients 1
buffers 4
size 64
threshold 4
traces 8
pins 4
stride 16
triggerid 1 1 10 0
client 0 0
begin 0000000000000001
point 1 aa
crumb 1
end
trigger 2 1 0000000000000001
client 1 0
begin 0000000000000001
point 1 aa
crumb 2
end
client 2 0
begin 0000000000000001
point 1 aa
crumb 0
end
client 3 0
begin 0000000000000001
point 1 aa
end
done
";

/// One buffer, whose chunk is claimed behind it.
pub(crate) const ONE_CLAIM: &str = "hindsight 1
nodes 1
clients 1
buffers 1
size 64
threshold 4
traces 8
pins 4
stride 16
triggerid 1 1 10 0
client 0 0
begin 0000000000000001
point 5 aa
end
trigger 6 1 0000000000000001
done
";

/// Nothing may be pinned.
pub(crate) const NO_PINS: &str = "hindsight 1
nodes 1
clients 1
buffers 4
size 64
threshold 4
traces 8
pins 0
stride 4
triggerid 1 1 10 0
client 0 0
begin 0000000000000000
point 1 aa
end
trigger 2 1 0000000000000000
begin 0000000000000000
point 3 aa
end
done
";

pub(crate) const A_TRIGGER_ALONE: &str = "hindsight 1
nodes 1
clients 1
buffers 4
size 64
threshold 4
traces 8
pins 4
stride 16
triggerid 1 1 10 0
client 0 0
trigger 1 1 0000000000000001
done
";

/// Two clients and one buffer.
pub(crate) const TWO_CLIENTS: &str = "hindsight 1
nodes 1
clients 2
buffers 1
size 64
threshold 4
traces 8
pins 4
stride 16
client 0 0
begin 0000000000000001
point 1 aa
end
client 0 1
begin 0000000000000002
point 2 aa
end
done
";

/// One buffer, which is evicted as soon as its chunk is there.
pub(crate) const TWO_SEGMENTS: &str = "hindsight 1
nodes 1
clients 1
buffers 1
size 64
threshold 0
traces 8
pins 4
stride 16
client 0 0
begin 0000000000000001
point 1 aa
end
begin 0000000000000002
point 2 aa
end
done
";

pub(crate) const FOUR_SEGMENTS: &str = "hindsight 1
nodes 1
clients 1
buffers 4
size 64
threshold 4
traces 8
pins 4
stride 16
triggerid 1 1 10 0
client 0 0
begin 0000000000000001
point 5 aa
end
begin 0000000000000001
point 5 aa
end
begin 0000000000000001
point 5 aa
end
begin 0000000000000001
point 5 aa
end
done
";

/// Three nodes with two clients each, of which none has as many operations as another. All that is sent comes in the first rounds;
/// one client goes on for ten rounds with samples that fire nothing, so nothing is left for closing.
pub(crate) const THREE_NODES: &str = "hindsight 1
nodes 3
clients 2
buffers 4
size 64
threshold 4
traces 8
pins 4
stride 2
triggerid 1 1 10 0
auto 0 exception 1
client 0 0
begin 0000000000000001
point 1 aa
crumb 1
end
trigger 2 1 0000000000000001
begin 0000000000000002
sample 3 0 0
sample 3 0 0
sample 3 0 0
sample 3 0 0
sample 3 0 0
sample 3 0 0
sample 3 0 0
sample 3 0 0
sample 3 0 0
sample 3 0 0
sample 3 0 0
sample 3 0 0
sample 3 0 0
sample 3 0 0
sample 3 0 0
sample 3 0 0
sample 3 0 0
sample 3 0 0
sample 3 0 0
end
client 0 1
begin 0000000000000011
point 1 bb
end
client 1 0
begin 0000000000000001
point 1 aa
crumb 2
end
client 1 1
begin 0000000000000012
point 1 bb
point 2 bb
point 3 bb
end
client 2 0
begin 0000000000000001
point 1 aa
end
begin 0000000000000013
sample 3 0 0
end
client 2 1
begin 0000000000000014
point 1 bb
point 2 bb
point 3 bb
point 4 bb
point 5 bb
end
done
";

/// Two nodes with a client each, and two rounds.
pub(crate) const TWO_NODES: &str = "hindsight 1
nodes 2
clients 1
buffers 4
size 64
threshold 4
traces 8
pins 4
stride 3
client 0 0
begin 0000000000000001
point 1 aa
end
begin 0000000000000002
point 2 aa
end
client 1 0
begin 0000000000000003
point 1 aa
end
done
";

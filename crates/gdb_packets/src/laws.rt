//! What follows of the definitions.

ghost use Rattle.gdb_packets.specs.PacketLaws.{PacketLaws};

/// What follows of packets: a body as it is sent has no byte that ends or begins a packet, its packet is whole and has its
/// sum, bytes have one first packet at most, and a packet that was put is heard as the body as it is sent, whatever
/// is passed over before it and left behind it.
pub fn packet_law()
    ensures { PacketLaws }
{}

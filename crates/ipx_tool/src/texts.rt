//! The long help texts of the program.

pub const ABOUT: &str = "IPX routers and SPX hosts over UDP (RFC 1234), with RIP and SAP";

pub const STATUSES: &str = "\
A packet is written in hex, two digits per byte, starting with its checksum ffff.

Status 0: success. 1: a packet, call or event was dropped or refused, a vector failed, reading or
writing failed, or out of memory. 2: a line of the input or the arguments are invalid.
Results go to standard output; this text and error messages go to standard error.

Example:
  $ echo ffff001e00000000002200007f00000540000000001100007f0000035000 | ipx hop
  forward 2 00007f000005 ffff001e01000000002200007f00000540000000001100007f0000035000";

pub const HOP: &str = "\
What a router with two ports does with one packet that arrives on port 1

Reads one packet in hex from standard input: at most 4096 bytes of text, including one line end.

  port 1: network 00000011, node 00007f000001, cost 1 tick
  port 2: network 00000022, node 00007f000002, cost 1 tick

The router knows no other network and no service. It prints one of
  forward PORT NODE HEX   the packet with one more hop, and the node of the next hop
  reply PORT NODE HEX     a packet that answers a request (one line each, maybe none)
  heard N                 N routes or services of a response are now known
  dropped (n) TEXT        the packet is dropped, for reason n";

pub const HOP_STATUSES: &str = "\
Status 0: forwarded, answered or heard. 1: dropped; reading or writing failed, or out of memory.
2: the input is not hex or too long (line 1 bad).

Example:
  $ echo ffff001e00000000002200007f00000540000000001100007f0000035000 | ipx hop
  forward 2 00007f000005 ffff001e01000000002200007f00000540000000001100007f0000035000";

pub const SHOW: &str = "\
The fields of one packet

Reads no input: the packet is the argument HEX. It prints the IPX header, and then the body: an
SPX packet (type 5), RIP (destination socket 0453) or SAP (0452).
If a packet is refused, it prints refused (n) TEXT, with the number and name of the fault.

With --frame it reads Ethernet frames from standard input, at most 1000000 bytes, one line of hex
each, starting with the destination address. For each it prints what the station NODE receives:
  frame E to NODE from NODE   E is 802.3, 802.2, snap or ethernet-ii; its packet's lines follow
  refused (n) TEXT            why the station does not accept it, n from 40 to 50
  line K bad                  line K is not hex";

pub const SHOW_STATUSES: &str = "\
Status 0: printed. 1: the packet is refused; reading or writing failed, or out of memory.
2: HEX is not hex (line 1 bad). With --frame the greatest status of all lines, and 2 if the input is
too long (line 0 bad).

Example:
  $ ipx show ffff001e00000000002200007f00000540000000001100007f0000035000
  ipx hops 0 kind 0 body 0
  to 00000022 00007f000005 4000
  from 00000011 00007f000003 5000";

pub const CHECK: &str = "\
Checks that packets are accepted or refused as expected

Reads test vectors from standard input, at most 1000000 bytes, one per line:
  ok HEX      a packet that must be accepted
  bad N HEX   bytes that must be refused with fault number N, from 1 to 39
Blank lines and lines that begin with # are skipped. It prints
  line K               the vector on line K has another outcome
  checked A failed B   at the end: of A vectors B failed
  line K bad           line K is malformed: nothing after it is read";

pub const CHECK_STATUSES: &str = "\
Status 0: none failed. 1: one failed; reading or writing failed, or out of memory.
2: a malformed line, or the input is too long (line 0 bad).

Example:
  $ echo bad 3 ffff001d00000000002200007f00000540000000001100007f0000035000 | ipx check
  checked 1 failed 0";

pub const SIM: &str = "\
Simulates a network in memory, driven by a script

Reads a script from standard input, at most 1000000 bytes, one step per line. Fields are separated
by one space. Networks have 1 to 8 hex digits, nodes 12, sockets 4, the datastream type SS two; HEX
is hex, or - for nothing; other numbers are decimal. First the layout, then the events:
  host NAME NET NODE ROUTERNODE [listen SOCKET BUFFERS]
  router NAME NET NODE COST ..             (three fields per port)
  dial HOST SOCKET NET NODE SOCKET BUFFERS end K: requests a connection
  send E SS HEX, fill E N                  end E sends a message, or N messages of one byte
  take E                                   what end E received
  close E, release E                       closes an end, or releases it
  tick MS                                  advances the time
  poll NAME                                parcel N NET NODE HEX for each packet, or quiet
  deliver N PLACE                          delivers a parcel to a host, or to ROUTER.PORT
  inject NET NODE HEX                      a packet from outside
  run N, pump N                            at most N rounds: poll all, deliver all; pump also takes
At the end it prints the state of each end, whether what it received is a prefix of what its peer
sent, and whether everything that ends read from their peers was fresh.";

pub const SIM_STATUSES: &str = "\
Status 0: done. 1: an end refused (refused (n) TEXT), or an event had a fault (fault (n) NAME);
reading or writing failed, or out of memory. 2: a bad line (line K bad), or the script is too long
(line 0 bad): nothing after it runs, and the last lines are not printed.

Example:
  $ printf 'tick 500\\ntick 7\\n' | ipx sim
  now 500
  now 507
  fresh yes";

pub const UDP: &str = "\
Runs a script over UDP sockets on the loopback, one per node, in one process

Reads a script as sim does, with only these lines: host, router, dial, send, fill, close, pump N.
A node is two zero bytes and an IP address. pump N gives each node N turns, and takes what ends
received. At the end it prints the state of each end.";

pub const UDP_STATUSES: &str = "\
Status 0: done. 1: an end refused, a socket cannot be bound or fails (fault (39) Device), reading or
writing failed, or out of memory. 2: a bad line (line K bad), or the script is too long (line 0
bad). Binding port 213 needs a privilege (CAP_NET_BIND_SERVICE).

Example:
  $ ipx udp --port 20213 < script";

pub const ROUTE: &str = "\
An IPX router for one site, over UDP (RFC 1234)

Reads the configuration file SITE, in TOML, with a table [[port]] for each network:
  network   eight hex digits
  address   the local IP address; the node is two zero bytes and this address
  udp_port  default 213
  cost      ticks, default 1
  peers     a list of IP addresses: the other nodes of the network
  routers   the peers that may forward packets and advertise; default: all peers
  accept    \"peers\" (default) or \"any\": whose packets are accepted
  directed  \"few\" (default), \"none\" or \"all\": how many directed broadcasts from
            other networks are forwarded onto this one
For an Ethernet port, with one Ethernet frame in each datagram:
  kind      \"ethernet\"
  network, address, cost and directed as above
  encapsulation  \"802.3\", \"802.2\", \"snap\" or \"ethernet-ii\"
  udp_port  where frames arrive, no default
  remotes   a list of address:port, such as [\"127.0.0.1:24001\"]: the other ends
  node      its MAC address, such as \"02:00:00:00:00:22\"; default: made from address
            and udp_port
  switch    true (default) or false: whether frames are forwarded between remotes
  tunnel    \"vxlan\" or \"l2tpv3\": what carries the frames; default: each datagram is one.
            With a tunnel the default of udp_port is 4789 for vxlan and 1701 for l2tpv3,
            and so is the port of a remote that is an IP address alone. By l2tpv3 with a
            cookie of 16 digits remotes may be [\"any\"]: one, learned from its frames
  vni       of vxlan: the number of its network, 1 to 16777215
  session   of l2tpv3: the session that is received, 1 to 4294967295
  peer_session  of l2tpv3: the session that is sent; default: session
  cookie    of l2tpv3: the cookie that is received, 8 or 16 hex digits; default: none
  peer_cookie   of l2tpv3: the cookie that is sent; default: cookie
  sublayer  of l2tpv3: true if there is the default sublayer, or false (default)
For DOSBox clients, which connect by ipxnet:
  kind      \"ipxnet\"
  network, address, cost, directed and node as above
  udp_port  where clients register, default 213
  clients   how many at once, 1 to 150, default 64
  peers     who may register: a list of IP addresses, prefixes such as
            \"203.0.113.0/24\", and names of hosts, which are looked up at the start
  accept    \"any\": everybody may register, and peers is optional
  join      a list of address:port, such as [\"198.51.100.7:2130\"]: ipxnet ports of
            other routers, on the same network, whose players share a game with those here
Optional, before the first port:
  metrics_file  a file to which the router writes its metrics every ten seconds
  tables_file   a file to which it writes its routing and service tables every ten seconds,
                for ipx networks and ipx services
  secret_file   a file of the secret and the players of ipxnet ports, made if it is missing:
                with it players stay through a restart of the router
After the ports, up to 256 static routes, [[route]], for routers that do not speak RIP:
  port      the number of a port, starting at 1
  next_hop  the next router: one of the port's peers, or a MAC address on an Ethernet port
  network   eight hex digits
  hops      1 to 14, default 1
  ticks     default: the port's cost
and up to 256 static services, [[service]], with port, next_hop and hops as above and
  type      four hex digits
  name      1 to 47 characters without spaces
  ipx_address  a network, a node and a socket, such as \"00000011 00000a010014 4002\"
It logs its ports, changes of routes and services, and warnings to standard error.";

pub const ROUTE_STATUSES: &str = "\
It runs until it is stopped; it exits by itself only at startup. Status 2: the file has a fault,
which one line reports, and nothing was bound. 1: a socket cannot be bound, or out of memory.
Binding port 213 needs a privilege (CAP_NET_BIND_SERVICE).

With --check it opens no socket. It prints the line of each port as at startup, without the size of
its receive buffer, a line for each static route and service and one for the file, and remarks about
what is allowed but odd. Status 0: the file has no fault. 2: it has one, reported by the same line.
1: out of memory, or writing failed.

Example:
  $ ipx route /etc/ipx/site.toml";

pub const FAREWELL: &str = "\
Takes back what a router that has stopped advertised

A router that stops says nothing: its neighbours use its routes and services for three more minutes.
After it has stopped, ipx farewell reads its configuration file SITE and its tables file. By each
port but those for ipxnet it sends what the router advertised there, with 16 hops, which means that
it is unreachable. It sends all of it three times, which takes under a second for a usual site, and
seven seconds for each port if the tables are full. A router that starts again advertises at once.

SITE must name a tables_file, which must be complete and at most 30 seconds old. What the router
learned after it wrote that file is not taken back: it writes it every ten seconds.";

pub const FAREWELL_STATUSES: &str = "\
Status 0: all was sent. 1: the tables are missing, incomplete or too old, or an address of a port is
in use, as it is while the router runs: then nothing is sent. Also if out of memory. 2: the
configuration file has a fault. One line reports what is wrong.

Example:
  $ ipx farewell /etc/ipx/site.toml";

pub const IPXNET: &str = "\
A server for players with DOSBox, without a file

It first prints the configuration file of a router with one port of kind \"ipxnet\", at which
everybody may register. Then it does what ipx route does with that file, but makes no file.
Players type in DOSBox, with the address of this machine:
  ipxnet connect ADDRESS P
Whoever reaches the UDP port may join, so end the server after the game. After a restart players
must type ipxnet disconnect, and connect again. To change that, or who may join, keep the printed
lines in a file, change them, and run ipx route with that file.";

pub const IPXNET_STATUSES: &str = "\
It runs until it is stopped, and logs to standard error as ipx route does. It exits by itself only
at startup. Status 1: the socket cannot be bound, writing failed, or out of memory.
Binding port 213 needs a privilege (CAP_NET_BIND_SERVICE). A port from 1024 on needs none.

Examples:
  $ ipx ipxnet --port 2130
  $ ipx ipxnet --port 2130 > game.toml";

pub const LISTEN: &str = "\
Accepts SPX connections, and writes the messages that it receives

Reads the configuration file HOST, in TOML:
  network   eight hex digits
  address   the local IP address; the node is two zero bytes and this address
  router    the IP address of the router: packets for other networks go there
  udp_port  default 213
  socket    four hex digits: the IPX socket on which it listens
  buffers   receive buffers per connection, default 1024
  peers     a list of IP addresses whose packets are accepted, besides the router's
  routers   the peers that are routers too
  allow     a list of networks, or of networks with a node, that may connect; default: all
  accept    \"peers\" (default) or \"any\": whose packets are accepted
The bytes of each message go to standard output once it is complete, with nothing between messages.
Up to 16 connections are open at once. If standard output is a pipe or a socket to which no other
process writes, and it is not read, senders have to wait, and stay connected. A terminal that is
stopped makes the host wait, and lose its connections.";

pub const LISTEN_STATUSES: &str = "\
It runs until it is stopped, or with --once until the first connection from which anything arrives
has ended, and its last packet came three seconds ago: nothing of others is written. Status 0: that
end came, and everything before it is written. 1: that connection was lost, writing failed, the
socket cannot be bound, or out of memory at startup. 2: the file has a fault, which one line on
standard error reports, and nothing was bound.

With --check, which excludes --once, it opens no socket, and prints a summary of the file as
ipx route --check does.

Example:
  $ ipx listen --once host.toml > copy";

pub const SEND: &str = "\
Opens an SPX connection, sends standard input, and closes the connection

Reads the file HOST as listen does, and connects from its socket to NET NODE SOCKET, which have
eight, twelve and four hex digits; NET 00000000 is the host's own network. What one read of standard
input returns, at most 65535 bytes, is one message. The input may pause for any time. On the host's
own network, packets from the destination node are accepted, as those of the router and the peers
are. If standard error is a terminal, one line there shows the progress.";

pub const SEND_STATUSES: &str = "\
Status 0: the other host has acknowledged all of the input, and the end after it; its program may
not have read the last of it. 1: no answer, or the connection is lost or closed by the other end,
and a line on standard error says how much was acknowledged; reading the input failed, the socket
cannot be bound, or out of memory. 2: an argument or the file has a fault, or NODE is on the host's
own network and is no host's IP address, which one line reports, and nothing was bound.

A connection is lost after ten timeouts in a row in which nothing new is acknowledged. Each lasts
up to 4 seconds, or up to 60 if the path is so long: some 22 to 36 seconds at usual round trips.
There is no limit while a host that still answers has no buffers free, and no wait once everything
is acknowledged.

Example:
  $ ipx send host.toml 00000033 00007f000104 4002 < file";

pub const NETWORKS: &str = "\
The networks that the routers of a host know, and their distance

Reads the file HOST as listen does, uses its address and socket, and sends a RIP request for all
networks to its router, and to each of its routers, on the host's own network. It repeats the
request after one and after two seconds if a router did not answer. It prints a line for each
network, the best answer by ticks and hops, and the router that gave it:
  network   hops  ticks  by
  00000022     2      8  00000a010001
and then how many there are, who answered, and how soon. A router does not list the host's own
network, nor networks that are reached through it.
No listen or send with the same address may run meanwhile, since a router answers only to that UDP
port.

If HOST is the configuration file of a router, no router is asked: it prints what the router last
wrote to its tables_file. The networks of its ports come first, with 0 hops, 0 ticks and a dash,
then the best route to each other network, and the neighbour that advertised it. If the file is
older than 30 seconds, a line on standard error says so.";

pub const NETWORKS_STATUSES: &str = "\
It ends once each answer is complete and 200 ms passed without more, or after four seconds.
Status 0: each router that was asked answered. 1: one did not, which a line on standard error
reports, or knows only the host's own network, since then it sends nothing; or more was received
than fits, writing failed, the socket cannot be bound, or out of memory. 2: the file has a fault,
which one line reports, and nothing was bound; or a router's file has no tables_file, or that file
is missing or incomplete.

Examples:
  $ ipx networks /etc/ipx/host.toml
  $ ipx networks /etc/ipx/hq.toml";

pub const SERVICES: &str = "\
The services that the routers of a host know, and their addresses

Asks as networks does, with a SAP query for the services of TYPE, four hex digits, or for all. It
prints a line for each service, the best answer by hops and address, and the router that gave it:
  type              name      network   node          socket  hops  by
  0004 file server  HQ-FILES  00000a01  000000000001  0451       1  00000a010001
and then how many there are, who answered, and how soon. A well-known type has its name beside it.
Names of services are printed as show prints them. A router does not list services on the host's
own network, nor those that are reached through it.
If HOST is the configuration file of a router, it prints what the router last wrote, as networks
does.";

pub const SERVICES_STATUSES: &str = "\
It ends, and the status is, as for networks: 1 also if a router knows no service of the type, since
then it sends nothing; 2 also if TYPE is not four hex digits.

Example:
  $ ipx services /etc/ipx/host.toml 0004";

pub const PING: &str = "\
Whether an SPX listener answers, and how far away it is

Reads the file HOST as listen does, uses its address and socket, and sends a connection request to
the listener at NET NODE SOCKET once a second. The request goes to the router if NET is not the
host's own network; 00000000 is the host's own network. It prints a line for each answer, or when
the next request is sent and no answer came:
  00000022 00000a02001e 4002: answer 1 in 31.2 ms, 2 routers
  00000022 00000a02001e 4002: no answer 3
and then how many were sent and answered, and the times. An answer that comes after the next request
counts for that one. There is no answer from a socket on which nobody listens, or from a host that
is full, as one with --once that has its sender, or does not allow this one to connect. A listener
keeps one connection slot for all of the requests, and frees it as that of a caller that sends no
data. No listen or send with the same address may run meanwhile.";

pub const PING_STATUSES: &str = "\
It ends once the last request is answered, or two seconds after it.
Status 0: one was answered. 1: none was, writing failed, the socket cannot be bound, or out of
memory. 2: an argument or the file has a fault, or NODE is on the host's own network and is no
host's IP address, which one line reports, and nothing was bound.

Example:
  $ ipx ping -c 1 /etc/ipx/host.toml 00000022 00000a02001e 4002";

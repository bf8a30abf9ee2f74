//! The Ada programs of the tour, which lie in the subset.

use crate::common::assert_read;

const RENDEZVOUS: &[u8] = b"with TEXT_IO; use TEXT_IO;
procedure RENDEZVOUS is
   task S is entry E; end S;
   task C;

   task body S is
   begin
      accept E do PUT_LINE (\"S serves C\"); end E;
   end S;

   task body C is
   begin
      S.E;
      PUT_LINE (\"C goes on\");
   end C;
begin
   null;
end RENDEZVOUS;
";

const DOORBELL: &[u8] = b"with TEXT_IO; use TEXT_IO;
procedure DOORBELL is
   task PORTER is entry RING; end PORTER;
   task VISITOR;

   task body PORTER is
   begin
      for TURN in 1 .. 2 loop
         select
            accept RING do PUT_LINE (\"the porter opens\"); end RING;
         or delay 0.5;
            PUT_LINE (\"nobody rang in time\");
         end select;
      end loop;
      select
         accept RING do PUT_LINE (\"the porter opens\"); end RING;
      else
         PUT_LINE (\"nobody is at the door\");
      end select;
   end PORTER;

   task body VISITOR is
   begin
      delay 0.2;
      PORTER.RING;
   end VISITOR;
begin
   null;
end DOORBELL;
";

const BAKERY: &[u8] = b"with TEXT_IO; use TEXT_IO;
procedure BAKERY is
   task BAKER is entry BUY; end BAKER;
   task GUEST;

   task body BAKER is
   begin
      delay 0.3;
      accept BUY do PUT_LINE (\"the baker sells a loaf\"); end BUY;
      delay 0.5;
   end BAKER;

   task body GUEST is
   begin
      select
         BAKER.BUY;
      else
         PUT_LINE (\"the shop isn't open yet\");
      end select;
      select
         BAKER.BUY;
         PUT_LINE (\"the guest has a loaf\");
      or delay 0.4;
      end select;
      select
         BAKER.BUY;
      or delay 0.2;
         PUT_LINE (\"the guest waits no longer\");
      end select;
   end GUEST;
begin
   null;
end BAKERY;
";

const WATCHED: &[u8] = b"with TEXT_IO; use TEXT_IO;
procedure WATCHED is
   task WORKER is entry PING; end WORKER;
   task WATCHDOG;

   task body WORKER is
   begin
      accept PING;
      delay 100.0;
   end WORKER;

   task body WATCHDOG is
   begin
      loop
         select
            WORKER.PING;
            PUT_LINE (\"the worker answers\");
         or delay 0.1;
            exit;
         end select;
      end loop;
      abort WORKER;
      PUT_LINE (\"terminated: \" & BOOLEAN'IMAGE (WORKER'TERMINATED));
      select
         WORKER.PING;
      or delay 0.1;
      end select;
   exception
      when TASKING_ERROR => PUT_LINE (\"the worker is gone\");
   end WATCHDOG;
begin
   null;
end WATCHED;
";

const SERVER_TREE: &[u8] = b"with TEXT_IO; use TEXT_IO;
procedure SERVER_TREE is
begin
   PART :
   declare
      task BOSS is entry ASK; end BOSS;
      task CLERK is entry ASK; end CLERK;

      task body BOSS is
         task AIDE is entry HELP; end AIDE;

         task body AIDE is
         begin
            CLERK.ASK;
            select
               accept HELP;
            or terminate;
            end select;
         end AIDE;
      begin
         select
            accept ASK;
         or terminate;
         end select;
      end BOSS;

      task body CLERK is
      begin
         loop
            select
               accept ASK do PUT_LINE (\"the clerk serves the aide\"); end ASK;
            or terminate;
            end select;
         end loop;
      end CLERK;
   begin
      null;
   end PART;
   PUT_LINE (\"all three are terminated\");
end SERVER_TREE;
";

const FAULTS: &[u8] = b"with TEXT_IO; use TEXT_IO;
procedure FAULTS is
   FAULT : exception;

   task SERVER is entry OUTER; entry INNER; end SERVER;
   task ANN;
   task BOB;

   task body SERVER is
   begin
      accept OUTER do
         begin
            accept INNER do raise FAULT; end INNER;
         exception
            when FAULT => PUT_LINE (\"the server handles FAULT\");
         end;
      end OUTER;
      accept OUTER do raise FAULT; end OUTER;
   exception
      when FAULT => PUT_LINE (\"the server handles FAULT again\");
   end SERVER;

   task body ANN is
   begin
      SERVER.OUTER;
      PUT_LINE (\"Ann's first call ends plainly\");
      SERVER.OUTER;
   exception
      when FAULT => PUT_LINE (\"Ann's second call raises FAULT\");
   end ANN;

   task body BOB is
   begin
      SERVER.INNER;
   exception
      when FAULT => PUT_LINE (\"Bob's call raises FAULT\");
   end BOB;
begin
   null;
end FAULTS;
";

/// The programs.
pub const PROGRAMS: [&[u8]; 6] = [RENDEZVOUS, DOORBELL, BAKERY, WATCHED, SERVER_TREE, FAULTS];

#[test]
fn reads_the_programs_of_the_tour(rt: HostRuntime) {
    for text in PROGRAMS {
        assert_read(&rt, text);
    }
}
